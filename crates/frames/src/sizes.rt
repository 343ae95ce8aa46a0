//! How many bytes frames take.

ghost use Rattle.std.specs.Prelude.{◌≡◌, ◌<◌, ◌≤◌, ◌^◌, length};
ghost use Rattle.std.specs.List.{flat_map, AllByRecursion};
ghost use Rattle.mrp_types.specs.declared.voted.Voted.{Voted as SomeVoted};
ghost use Rattle.mrp_types.specs.declared.voted.Decided.{Decided as SomeDecided};
ghost use Rattle.command_codec.specs.Parts.{IsSpelled};
ghost use Rattle.command_codec.specs.Spelling.{value_bytes};
ghost use Rattle.frames.specs.Spelling.{frame_bytes, body_bytes, vote_bytes, decided_bytes, tuple_bytes, vote_size as size_of_vote, decided_size as size_of_decided};
ghost use Rattle.frames.specs.Valid.{IsBody};

use crate::{Body, Frame};
use mrp_types::{Decided, Tuple, Value, Voted};

/// How many bytes a frame takes.
#[tactic(auto, using(crate::proofs::Lengths::frame_length, crate::proofs::Lengths::body_short))]
pub fn frame_size(frame: &Frame) -> usize
    requires { IsBody frame.now.body }
    ensures { result ≡ length (frame_bytes frame.now) }
{
    6 + body_size(&frame.body)
}

#[tactic(auto, using(crate::proofs::Lengths::body_length, command_codec::proofs::PartLaws::value_short, crate::proofs::Lengths::few_votes, crate::proofs::Lengths::few_ranges, crate::proofs::Lengths::votes_spelled, crate::proofs::Lengths::ranges_spelled))]
fn body_size(body: &Body) -> usize
    requires { IsBody body.now }
    ensures { result ≡ length (body_bytes body.now) }
{
    match body {
        Body::Submit { command, .. } => 13 + command.len(),
        Body::Prepare { .. } => 17,
        Body::Promise { votes, .. } => 35 + votes_size(votes.items()),
        Body::Refuse { .. } => 17,
        Body::Accept { value, .. } => 28 + value_size(value),
        Body::Decide { value, .. } => 20 + value_size(value),
        Body::Fetch { .. } => 9,
        Body::Chosen { ranges, .. } => 3 + ranges_size(ranges.items()),
        Body::Trimmed { .. } => 9,
        Body::AskSafe { .. } => 9,
        Body::Safe { .. } => 17,
        Body::TrimTo { .. } => 9,
        Body::AskCheckpoint { .. } => 8,
        Body::HaveCheckpoint { tuple, .. } => 8 + tuple_size(tuple.tuple()),
        Body::AskPart { tuple, .. } => 16 + tuple_size(tuple.tuple()),
        Body::Part { tuple, bytes, .. } => 26 + tuple_size(tuple.tuple()) + bytes.len(),
        Body::Gone { asked, newer, .. } => 8
            + tuple_size(asked.tuple())
            + tuple_size(newer.tuple()),
        Body::Reply { reply, .. } => 12 + reply.len(),
        Body::Hello => 0,
    }
}

/// How many bytes a vote takes among others.
#[tactic(auto, using(command_codec::proofs::PartLaws::value_short, crate::proofs::Lengths::vote_length))]
pub fn vote_size(vote: &Voted) -> usize
    requires { IsSpelled vote.now.value }
    ensures size { result ≡ size_of_vote vote.now }
    // That many bytes spell it.
    ensures spelled { result ≡ length (vote_bytes vote.now) }
{
    26 + value_size(&vote.value)
}

/// How many bytes a decided range takes among others.
#[tactic(auto, using(command_codec::proofs::PartLaws::value_short, crate::proofs::Lengths::decided_length))]
pub fn decided_size(decided: &Decided) -> usize
    requires { IsSpelled decided.now.value }
    ensures size { result ≡ size_of_decided decided.now }
    // That many bytes spell it.
    ensures spelled { result ≡ length (decided_bytes decided.now) }
{
    18 + value_size(&decided.value)
}

fn value_size(value: &Value) -> usize
    ensures { result ≡ length (value_bytes value.now) }
{
    match value {
        Value::Skip => 1,
        Value::Batch(batch) => batch.bytes().len(),
    }
}

fn votes_size(votes: &[Voted]) -> usize
    requires short { length (flat_map vote_bytes votes.now) < 2 ^ 32 }
    requires spelled { AllByRecursion (λ (v : SomeVoted). IsSpelled v.value) votes.now }
    ensures { result ≡ length (flat_map vote_bytes votes.now) }
{
    let mut size = 0;
    for vote in votes {
        size += vote_size(vote);
    }
    size
}

fn ranges_size(ranges: &[Decided]) -> usize
    requires short { length (flat_map decided_bytes ranges.now) < 2 ^ 32 }
    requires spelled { AllByRecursion (λ (d : SomeDecided). IsSpelled d.value) ranges.now }
    ensures { result ≡ length (flat_map decided_bytes ranges.now) }
{
    let mut size = 0;
    for decided in ranges {
        size += decided_size(decided);
    }
    size
}

#[tactic(auto, using(crate::proofs::Lengths::tuple_length))]
fn tuple_size(tuple: &Tuple) -> usize
    ensures size { result ≡ length (tuple_bytes tuple.now) }
    ensures short { result ≤ 145 }
{
    1 + 9 * tuple.pairs().len()
}
