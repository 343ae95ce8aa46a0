//! The laws of lines and their text, which name no code.

ghost use Rattle.std.specs.Prelude.{◌≡◌, List, ℕ, Some, Ok};
ghost use Rattle.transcript.specs.declared.line.Line.{Line};
ghost use Rattle.transcript.specs.Spelling.{line_bytes, lines_text, IsLine};
ghost use Rattle.transcript.specs.Reading.{line_of};
ghost use Rattle.transcript.specs.Whole.{transcript_of, IsTranscript};

/// A line that may be is read as it is spelled.
pub fn lines_are_read()
    ensures { (line : Line) → IsLine line → line_of (line_bytes line) ≡ Some line }
{}

/// What is read of bytes is a line that may be, and the bytes are its spelling.
pub fn what_is_read_is_spelled_so()
    ensures spelled { (bytes : List ℕ) (line : Line) → line_of bytes ≡ Some line → bytes ≡ line_bytes line }
    ensures may_be { (bytes : List ℕ) (line : Line) → line_of bytes ≡ Some line → IsLine line }
{}

/// A line has one spelling, and no other line that may be has it.
pub fn one_spelling_a_line()
    ensures { (line other : Line) → IsLine line → IsLine other → line_bytes line ≡ line_bytes other → line ≡ other }
{}

/// A transcript that may be is read as it is written: all of its lines.
pub fn transcripts_are_read()
    ensures { (lines : List Line) → IsTranscript lines → transcript_of (lines_text lines) ≡ Ok lines }
{}

/// What is read of bytes as a whole is a transcript that may be, and the bytes are its text.
pub fn what_is_read_is_a_transcript()
    ensures { (bytes : List ℕ) (lines : List Line) → transcript_of bytes ≡ Ok lines → (bytes ≡ lines_text lines) × IsTranscript lines }
{}
