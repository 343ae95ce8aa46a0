//! What a case is about: its word, and the bytes that it gives to its reader.

ghost use Rattle.std.specs.Prelude.{◌≡◌, List, ℕ, Ok, IfOk, MatchOption};
ghost use Rattle.std.specs.Option.{option_map};
ghost use Rattle.hex.specs.Hex.{decode_of};
ghost use Rattle.verdicts.specs.Cases.{cut_of};

use crate::texts::Texts;
use mrp_types::Memory;
use std::alloc::Global;

/// What stands before the first space, and what stands behind it; none where there is no space.
pub fn cut(case: &str) -> Option<(&str, &str)>
    ensures { option_map (λ x. (x.0.now, x.1.now)) result ≡ cut_of case.now }
{
    case.split_once(' ')
}

/// The bytes of hexadecimal text; none where it is no such text.
pub fn bytes_of_hex(alloc: Global, text: &str) -> Result<Option<Vec<u8>>, Memory>
    ensures { IfOk result (λ found. MatchOption found
        ((bytes : List ℕ) → decode_of text.now ≡ Ok bytes → ⊥)
        (λ bytes. decode_of text.now ≡ Ok bytes.items)) }
{
    match hex::decode(alloc, text) {
        Ok(bytes) => Ok(Some(bytes)),
        Err(hex::FromHexError::OutOfMemory) => Err(Memory),
        Err(_) => Ok(None),
    }
}

/// The text of a deployment as its case writes it over; none where there is no such text, or nothing to write over.
pub fn text_of_config(alloc: Global, texts: &Texts, case: &str) -> Result<Option<String>, Memory> {
    let Some((name, edit)) = cut(case) else {
        return match texts.named(case) {
            Some(text) => Ok(Some(String::from_str(alloc, text)?)),
            None => Ok(None),
        };
    };
    let (Some(text), Some((old, new))) = (texts.named(name), edit.split_once(" => ")) else {
        return Ok(None);
    };
    let old = with_control(alloc, old)?;
    let Some((before, behind)) = text.split_once(old.as_str()) else {
        return Ok(None);
    };
    let new = with_control(alloc, new)?;
    Ok(Some(format!(in alloc; "{before}{new}{behind}")?))
}

/// The text of a deployment and a comment behind it, so many bytes in all where the text isn't longer; none where there
/// is no such text.
pub fn padded_text(alloc: Global, texts: &Texts, case: &str) -> Result<Option<String>, Memory> {
    let Some((name, length)) = cut(case) else {
        return Ok(None);
    };
    let (Some(text), Ok(length)) = (texts.named(name), length.parse::<u32>()) else {
        return Ok(None);
    };
    let mut text = String::from_str(alloc, text)?;
    text.push('#')?;
    for _turn in text.len()..length as usize {
        text.push(' ')?;
    }
    Ok(Some(text))
}

/// The text with a line feed for each `\n`, a tab for each `\t` and a carriage return for each `\r`.
pub fn with_control(alloc: Global, text: &str) -> Result<String, Memory> {
    let text = text
        .replace(alloc, "\\n", "\n")?
        .replace(alloc, "\\t", "\t")?
        .replace(alloc, "\\r", "\r")?;
    Ok(text)
}
