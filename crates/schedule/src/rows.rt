//! The writing and reading of events computed on worked lines.

ghost use Rattle.std.specs.List.{AllByRecursion};
ghost use Rattle.schedule.specs.Rows.{IsWritten, IsRead, rows, IsFault, no_words, no_numbers, out_of_range, later_faults, IsAsked, texts};

/// Events of each kind, as they are written, and read again.
pub fn events_of_each_kind()
    ensures written { AllByRecursion IsWritten rows }
    ensures read { AllByRecursion IsRead rows }
{}

/// Lines that are no event, each with its first fault from the left.
pub fn first_faults()
    ensures words { AllByRecursion IsFault no_words }
    ensures numbers { AllByRecursion IsFault no_numbers }
    ensures ranges { AllByRecursion IsFault out_of_range }
    ensures later { AllByRecursion IsFault later_faults }
{}

/// Texts of clients, each with its command or its first fault.
pub fn texts_of_clients()
    ensures { AllByRecursion IsAsked texts }
{}
