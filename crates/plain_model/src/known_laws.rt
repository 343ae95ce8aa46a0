//! What is known of a book.

ghost use Rattle.std.specs.Prelude.{◌≡◌, ◌++◌, ℕ, List, Some};
ghost use Rattle.mrp_types.specs.declared.id.RingId.{RingId};
ghost use Rattle.mrp_types.specs.declared.value.Entry.{Entry};
ghost use Rattle.mrp_types.specs.Book.{Learning};
ghost use Rattle.plain_model.specs.Fold.{entries_below};

/// The entries below a tuple stay what they are as the book grows, once all its places are in it.
pub fn entries_below_stay()
    ensures { (m : ℕ → ℕ) (known more : List Learning) (tuple : List (RingId × ℕ)) (es : List Entry) → entries_below m known tuple ≡ Some es →
        entries_below m (known ++ more) tuple ≡ Some es }
{}
