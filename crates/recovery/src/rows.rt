//! Attempts made by hand, computed.

ghost use Rattle.std.specs.Prelude.{◌≡◌, [], ◌∷◌, true, false, Some, None};
ghost use Rattle.recovery.specs.Attempts.{quiet, heard, parted, gone, ticked, fresh};
ghost use Rattle.recovery.specs.Rows.{node, at, first_after, first, chosen, half, all, renewed};
ghost use Rattle.recovery.specs.Turns.{IsChosen, LacksAnswers, IsWhole, LacksPart, AsksAgain, HasTooFew, HasEnded, turn_of, tick_turn};

/// An answer of an earlier epoch, of an earlier attempt, of no replica, or a second one isn't counted.
pub fn some_answers_are_not_counted()
    ensures epoch { heard (node 4) 2 1 (at 9) first ≡ first }
    ensures attempt { heard (node 4) 3 0 (at 9) first ≡ first }
    ensures stranger { heard (node 5) 3 1 (at 9) first ≡ first }
    ensures again { heard (node 2) 3 1 (at 9) first ≡ first }
    ensures late { heard (node 1) 3 1 (at 12) chosen ≡ quiet chosen }
{}

/// The greatest tuple is chosen: the own answer where it has it, else the least node's.
pub fn the_greatest_tuple_is_chosen()
    ensures own { turn_of (heard (node 1) 3 1 (at 5) first) ≡ IsChosen (at 5) (node 2) }
    ensures lower { turn_of (heard (node 1) 3 1 (at 4) first) ≡ IsChosen (at 5) (node 2) }
    ensures greater { turn_of chosen ≡ IsChosen (at 9) (node 4) }
    ensures least { turn_of (heard (node 1) 3 1 (at 9) (heard (node 4) 3 1 (at 9) (record first { needed = 3 }))) ≡ IsChosen (at 9) (node 1) }
{}

/// Parts come in order: a repeated or a skipped offset is dropped, and so is one of another node or tuple.
pub fn parts_come_in_order()
    ensures first { turn_of half ≡ LacksPart 2 }
    ensures repeated { parted (node 4) 3 1 (at 9) 0 3 (7 ∷ 8 ∷ []) half ≡ half }
    ensures skipped { parted (node 4) 3 1 (at 9) 3 3 (9 ∷ []) half ≡ half }
    ensures node { parted (node 1) 3 1 (at 9) 2 3 (9 ∷ []) half ≡ half }
    ensures tuple { parted (node 4) 3 1 (at 8) 2 3 (9 ∷ []) half ≡ half }
    ensures last { turn_of all ≡ IsWhole (at 9) }
{}

/// A newer checkpoint of the chosen node is the choice, from its first byte on.
pub fn a_newer_checkpoint_begins_anew()
    ensures choice { renewed.attempt.choice ≡ Some (fresh (node 4, at 12)) }
    ensures told { turn_of renewed ≡ IsChosen (at 12) (node 4) }
    ensures after { turn_of (quiet renewed) ≡ LacksPart 0 }
    ensures older { gone (node 4) 3 1 (at 9) (at 8) half ≡ half }
{}

/// The order of what a turn says.
pub fn turns_say_the_first_that_applies()
    ensures answers { turn_of first ≡ LacksAnswers }
    ensures changed { turn_of chosen ≡ IsChosen (at 9) (node 4) }
    ensures part { turn_of (quiet chosen) ≡ LacksPart 0 }
    ensures whole { turn_of all ≡ IsWhole (at 9) }
{}

/// The order of what a tick says.
pub fn ticks_say_the_first_that_applies()
    ensures few { tick_turn true (ticked (first_after 19)) ≡ HasTooFew 1 2 }
    ensures part { tick_turn true (ticked (heard (node 4) 3 1 (at 9) (first_after 19))) ≡ HasEnded }
    ensures before { tick_turn false (ticked (first_after 18)) ≡ LacksAnswers }
    ensures past { tick_turn false (ticked (first_after 20)) ≡ LacksAnswers }
    ensures again { tick_turn true (ticked first) ≡ AsksAgain }
    ensures again_part { tick_turn true (ticked half) ≡ AsksAgain }
    ensures quietly { tick_turn false (ticked chosen) ≡ LacksPart 0 }
    ensures whole { tick_turn true (ticked all) ≡ IsWhole (at 9) }
    ensures whole_last { tick_turn true (ticked (record all { attempt = record all.attempt { ticks = 19 } })) ≡ IsWhole (at 9) }
{}
