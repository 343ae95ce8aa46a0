//! Words at the end of what was written.

ghost use Rattle.std.specs.Prelude.{◌≡◌, ◌≤◌, ◌++◌, length, OnOk};
ghost use Rattle.std.specs.Fmt.{decimal};
ghost use Rattle.hex.specs.Hex.{encode_lower};
ghost use Rattle.text_lines.specs.Text.{spaced, hex_text};

use itoa::Buffer;
use mrp_types::{Memory, Octets};

// How many bytes are spelled at a time.
const PIECE: usize = 64;

/// Adds a space and a word. After a refusal nothing is said of what `out` holds.
pub fn put_word(out: &mut Octets, word: &[u8]) -> Result<(), Memory>
    ensures { OnOk result (out.new ≡ out.old ++ spaced word.now) }
{
    out.push(b' ')?;
    out.extend(word)
}

/// Adds a number in decimal; without memory nothing is added.
pub fn put_decimal(out: &mut Octets, number: u64) -> Result<(), Memory>
    ensures { OnOk result (out.new ≡ out.old ++ decimal number) }
{
    let mut buffer = Buffer::new();
    out.extend(buffer.format(number).as_bytes())
}

/// Adds a space and a number in decimal. After a refusal nothing is said of what `out` holds.
pub fn put_number(out: &mut Octets, number: u64) -> Result<(), Memory>
    ensures { OnOk result (out.new ≡ out.old ++ spaced (decimal number)) }
{
    out.push(b' ')?;
    put_decimal(out, number)
}

/// Adds a space and bytes in lower-case hexadecimal. After a refusal nothing is said of what `out` holds.
pub fn put_hex(out: &mut Octets, bytes: &[u8]) -> Result<(), Memory>
    ensures { OnOk result (out.new ≡ out.old ++ spaced (encode_lower bytes.now)) }
{
    out.push(b' ')?;
    let mut rest = bytes;
    while !rest.is_empty() {
        let (piece, after) = rest.split_at(rest.len().min(PIECE));
        put_piece(out, piece)?;
        rest = after;
    }
    Ok(())
}

// Adds the digits of a few bytes.
fn put_piece(out: &mut Octets, bytes: &[u8]) -> Result<(), Memory>
    requires { length bytes.now ≤ PIECE }
    ensures { OnOk result (out.new ≡ out.old ++ encode_lower bytes.now) }
{
    let mut digits = [0; 2 * PIECE];
    let text = &mut digits[..2 * bytes.len()];
    match hex::encode_to_slice(bytes, text) {
        Ok(()) => out.extend(text),
        Err(_) => unreachable!(),
    }
}

/// Adds a space and bytes as `Words::hex` reads them: lower-case hexadecimal, `-` for none. After a refusal nothing is
/// said of what `out` holds.
pub fn put_bytes(out: &mut Octets, bytes: &[u8]) -> Result<(), Memory>
    ensures { OnOk result (out.new ≡ out.old ++ spaced (hex_text bytes.now)) }
{
    if bytes.is_empty() {
        return put_word(out, b"-");
    }
    put_hex(out, bytes)
}
