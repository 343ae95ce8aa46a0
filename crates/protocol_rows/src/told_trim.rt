//! A node that is ready at the tuple 0 is told the trim 4.

ghost use Rattle.std.specs.Prelude.{◌≡◌, Some};
ghost use Rattle.protocol_rows.specs.Told_trim.{shown, wanted};

/// It records the trim, asks the other replicas, and prints that its second attempt begins.
pub fn prints()
    ensures { shown ≡ Some wanted }
{}
