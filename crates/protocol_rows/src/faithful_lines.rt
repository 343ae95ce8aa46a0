//! The lines of the worked schedules are faithful.

ghost use Rattle.std.specs.Prelude.{◌≡◌};
ghost use Rattle.line_rules.specs.Verdict.{Faithful, verdict};
ghost use Rattle.protocol_rows.specs.Levelling_nodes as levelling_nodes;
ghost use Rattle.protocol_rows.specs.Small_journal as small_journal;
ghost use Rattle.protocol_rows.specs.Three_nodes as three;
ghost use Rattle.protocol_rows.specs.Two_rings as two_rings;
ghost use Rattle.protocol_rows.specs.Checkpoint_of_another as checkpoint_of_another;
ghost use Rattle.protocol_rows.specs.Compacted as compacted;
ghost use Rattle.protocol_rows.specs.Compaction_stopped_after as compaction_stopped_after;
ghost use Rattle.protocol_rows.specs.Compaction_stopped_before as compaction_stopped_before;
ghost use Rattle.protocol_rows.specs.Delivered_again as delivered_again;
ghost use Rattle.protocol_rows.specs.Failed_calls as failed_calls;
ghost use Rattle.protocol_rows.specs.Fetched as fetched;
ghost use Rattle.protocol_rows.specs.Gone_checkpoint as gone_checkpoint;
ghost use Rattle.protocol_rows.specs.Last_answer as last_answer;
ghost use Rattle.protocol_rows.specs.Late_answers as late_answers;
ghost use Rattle.protocol_rows.specs.Levelled as levelled;
ghost use Rattle.protocol_rows.specs.Newer_leader as newer_leader;
ghost use Rattle.protocol_rows.specs.No_event as no_event;
ghost use Rattle.protocol_rows.specs.No_quorum as no_quorum;
ghost use Rattle.protocol_rows.specs.One_command as one_command;
ghost use Rattle.protocol_rows.specs.One_state as one_state;
ghost use Rattle.protocol_rows.specs.Stopped_vote as stopped_vote;
ghost use Rattle.protocol_rows.specs.Suspected_leader as suspected_leader;
ghost use Rattle.protocol_rows.specs.Trim_frames as trim_frames;
ghost use Rattle.protocol_rows.specs.Trim_round as trim_round;
ghost use Rattle.protocol_rows.specs.Trimmed_too_far as trimmed_too_far;
ghost use Rattle.protocol_rows.specs.Two_leaders as two_leaders;

/// Schedules of three nodes that order commands.
pub fn orders_are_faithful()
    ensures no_event { verdict three.config no_event.lines ≡ Faithful 7 }
    ensures one_command { verdict three.config one_command.lines ≡ Faithful 23 }
    ensures one_state { verdict three.config one_state.lines ≡ Faithful 24 }
    ensures delivered_again { verdict three.config delivered_again.lines ≡ Faithful 20 }
    ensures stopped_vote { verdict three.config stopped_vote.lines ≡ Faithful 19 }
    ensures two_leaders { verdict three.config two_leaders.lines ≡ Faithful 22 }
    ensures late_answers { verdict three.config late_answers.lines ≡ Faithful 13 }
    ensures no_quorum { verdict three.config no_quorum.lines ≡ Faithful 9 }
    ensures last_answer { verdict three.config last_answer.lines ≡ Faithful 9 }
    ensures fetched { verdict three.config fetched.lines ≡ Faithful 19 }
    ensures failed_calls { verdict three.config failed_calls.lines ≡ Faithful 15 }
    ensures suspected_leader { verdict three.config suspected_leader.lines ≡ Faithful 22 }
{}

/// Schedules with checkpoints, trims and recoveries.
pub fn recoveries_are_faithful()
    ensures checkpoint_of_another { verdict three.config checkpoint_of_another.lines ≡ Faithful 41 }
    ensures trim_round { verdict three.config trim_round.lines ≡ Faithful 36 }
    ensures trim_frames { verdict three.config trim_frames.lines ≡ Faithful 41 }
    ensures gone_checkpoint { verdict three.config gone_checkpoint.lines ≡ Faithful 60 }
    ensures trimmed_too_far { verdict three.config trimmed_too_far.lines ≡ Faithful 35 }
{}

/// Compactions, and rings that are levelled.
pub fn others_are_faithful()
    ensures compacted { verdict small_journal.config compacted.lines ≡ Faithful 31 }
    ensures compaction_stopped_before { verdict small_journal.config compaction_stopped_before.lines ≡ Faithful 31 }
    ensures compaction_stopped_after { verdict small_journal.config compaction_stopped_after.lines ≡ Faithful 31 }
    ensures levelled { verdict two_rings.config levelled.lines ≡ Faithful 12 }
    ensures newer_leader { verdict levelling_nodes.config newer_leader.lines ≡ Faithful 15 }
{}
