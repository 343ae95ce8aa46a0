//! The writing and reading of lines computed on worked texts.

ghost use Rattle.std.specs.List.{AllByRecursion};
ghost use Rattle.transcript.specs.Rows.{IsWritten, lines, IsRow, rows, IsLeft, after_the_end};

/// Lines of each kind, as they are written.
pub fn lines_of_each_kind()
    ensures { AllByRecursion IsWritten lines }
{}

/// Texts that are no line, each with its first fault from the left; and a transcript in which a line stands after the end.
pub fn first_faults()
    ensures lines { AllByRecursion IsRow rows }
    ensures whole { IsLeft after_the_end }
{}
