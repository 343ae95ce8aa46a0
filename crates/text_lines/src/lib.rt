//! Lines of words: the form of schedules and transcripts. A line is one or more words with single spaces between,
//! ended by a line feed. Numbers are decimal without leading zeros; bytes are lower-case hexadecimal.
#![tactic(auto)]

mod fault;
mod find;
mod words;
mod writing;

pub use fault::TextFault;
pub use find::{FirstLine, find_byte, split_line};
pub use words::{Words, bytes_of_word, number_of_word};
pub use writing::{put_bytes, put_decimal, put_hex, put_number, put_word};
