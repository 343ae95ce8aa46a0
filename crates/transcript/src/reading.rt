//! Lines from text.

ghost use Rattle.std.specs.Prelude.{◌≡◌, ◌∷◌};
ghost use Rattle.text_lines.specs.Split.{words_of};
ghost use Rattle.text_lines.specs.Words.{by_key};
ghost use Rattle.transcript.specs.declared.fault.LineKind.TheVariants.{Word as NoWord};
ghost use Rattle.transcript.specs.Words.{Reads, Says};
ghost use Rattle.transcript.specs.Reading.{kinds_of_nodes, kinds_of_recovery, kind_at, line_in, line_of_text, line_at, text_in, Judges};

use crate::kinds::{
    read_answer, read_begin, read_busy, read_chose, read_deliver, read_down, read_end, read_frame,
    read_learn, read_limit, read_refuse, read_reply, read_restore, read_saved, read_state,
    read_trim, read_up,
};
use crate::words::read_word;
use crate::{Line, LineFault, LineKind};
use std::alloc::Global;
use text_lines::Words;

/// The line that these bytes spell, all of the bytes, ended by a line feed; or its first fault from the left, with the
/// number that the line has.
pub fn read_line(alloc: Global, bytes: &[u8], number: u32) -> Result<Line, LineFault>
    ensures { Judges (line_at bytes.now) number result }
{
    let text = text_of(bytes);
    match read_text(alloc, text.0, text.1) {
        Ok(line) => Ok(line),
        Err(kind) => Err(LineFault { line: number, kind }),
    }
}

// The bytes without a line feed at their end, and whether one stood there.
fn text_of(bytes: &[u8]) -> (&[u8], bool)
    ensures { (result.0.now, result.1) ≡ text_in bytes.now }
{
    let Some((last, text)) = bytes.split_last() else {
        return (bytes, false);
    };
    if *last == b'\n' {
        return (text, true);
    }
    (bytes, false)
}

fn read_text(alloc: Global, text: &[u8], ended: bool) -> Result<Line, LineKind>
    ensures { Says (λ l. l) (line_of_text (text.now, ended)) result }
{
    let line = read_words(alloc, text)?;
    if !ended {
        return Err(LineKind::Cut);
    }
    Ok(line)
}

// The line of these words, all of them.
fn read_words(alloc: Global, text: &[u8]) -> Result<Line, LineKind>
    ensures { Says (λ l. l) (line_in (words_of text.now)) result }
{
    let mut words = Words::new(text);
    let line = read_kind(alloc, &mut words)?;
    if words.end().is_err() {
        return Err(LineKind::Left);
    }
    Ok(line)
}

// The kind by the first word.
#[tactic(auto, unfolding(crate::specs::Reading::kind_at))]
fn read_kind(alloc: Global, words: &mut Words<'_>) -> Result<Line, LineKind>
    ensures { Reads (λ l. l) (kind_at words.old) result words.new }
{
    let word = read_word(words)?;
    if word == b"learn".as_slice() {
        return read_learn(alloc, words);
    }
    if word == b"deliver".as_slice() {
        return read_deliver(words);
    }
    if word == b"reply".as_slice() {
        return read_reply(alloc, words);
    }
    if word == b"answer".as_slice() {
        return read_answer(alloc, words);
    }
    if word == b"busy".as_slice() {
        return read_busy(words);
    }
    if word == b"end".as_slice() {
        return read_end(words);
    }
    read_recovery(alloc, word, words)
}

// The kinds of checkpoints, trims and recovery, and those of `read_node`.
#[tactic(auto, unfolding(crate::specs::Reading::kinds_of_recovery))]
fn read_recovery(alloc: Global, word: &[u8], words: &mut Words<'_>) -> Result<Line, LineKind>
    ensures { Reads (λ l. l) (by_key NoWord kinds_of_recovery (word.now ∷ words.old)) result words.new }
{
    if word == b"begin".as_slice() {
        return read_begin(alloc, words);
    }
    if word == b"chose".as_slice() {
        return read_chose(alloc, words);
    }
    if word == b"restore".as_slice() {
        return read_restore(alloc, words);
    }
    if word == b"saved".as_slice() {
        return read_saved(alloc, words);
    }
    if word == b"trim".as_slice() {
        return read_trim(words);
    }
    if word == b"refuse".as_slice() {
        return read_refuse(words);
    }
    read_node(alloc, word, words)
}

// The kinds of a node's life, and those of states and frames.
#[tactic(auto, unfolding(crate::specs::Reading::kinds_of_nodes))]
fn read_node(alloc: Global, word: &[u8], words: &mut Words<'_>) -> Result<Line, LineKind>
    ensures { Reads (λ l. l) (by_key NoWord kinds_of_nodes (word.now ∷ words.old)) result words.new }
{
    if word == b"limit".as_slice() {
        return read_limit(words);
    }
    if word == b"down".as_slice() {
        return read_down(words);
    }
    if word == b"up".as_slice() {
        return read_up(words);
    }
    if word == b"state".as_slice() {
        return read_state(alloc, words);
    }
    if word == b"frame".as_slice() {
        return read_frame(alloc, words);
    }
    Err(LineKind::Word)
}
