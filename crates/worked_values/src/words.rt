//! Words of a line, and the words that a line has.

ghost use Rattle.std.specs.Prelude.{◌≡◌, ◌++◌, [], ◌∷◌, true, false, codes, map, Some, None};
ghost use Rattle.std.specs.List.{AllByRecursion};
ghost use Rattle.text_lines.specs.Split.{first_line, words_of};
ghost use Rattle.text_lines.specs.Text.{hex_text, joined};
ghost use Rattle.worked_values.specs.Words.{IsHex, IsNumber, IsWithin, hexes, numbers, numbers_within};

/// Numbers, numbers of a range, and bytes.
#[tactic(auto, unfolding(hex::specs::Hex::encode_with, hex::specs::Hex::decode_pairs))]
pub fn words_read()
    ensures numbers { AllByRecursion IsNumber numbers }
    ensures within { AllByRecursion IsWithin numbers_within }
    ensures bytes { AllByRecursion IsHex hexes }
{}

/// What stands before the first line feed and behind it, and the words of a line, of which one is empty.
#[tactic(auto, unfolding(hex::specs::Hex::encode_with))]
pub fn lines_and_words()
    ensures none { first_line [] ≡ None }
    ensures unended { first_line (codes "a b") ≡ Some (codes "a b", false, []) }
    ensures empty { first_line (10 ∷ []) ≡ Some ([], true, []) }
    ensures ended { first_line (codes "a" ++ 10 ∷ codes "b") ≡ Some (codes "a", true, codes "b") }
    ensures words { words_of (codes "ask  7 -") ≡ codes "ask" ∷ [] ∷ codes "7" ∷ codes "-" ∷ [] }
    ensures written { joined (codes "x" ∷ hex_text (10 ∷ 255 ∷ []) ∷ hex_text [] ∷ []) ≡ codes "x 0aff -" }
{}
