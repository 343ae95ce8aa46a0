//! Where a byte stands.

ghost use Rattle.std.specs.Prelude.{◌≡◌, ◌<◌, length, IfSome};
ghost use Rattle.std.specs.Option.{option_map};
ghost use Rattle.text_lines.specs.Split.{place_of, first_line};

/// The first line of bytes.
#[derive(Clone, Copy, Debug)]
pub struct FirstLine<'a> {
    /// The line without its line feed.
    pub text: &'a [u8],
    /// Whether a line feed ends it; where none does, nothing is behind the line.
    pub ended: bool,
    /// The bytes behind the line and its line feed.
    pub after: &'a [u8],
}

/// The place of the first byte that is this one.
pub fn find_byte(bytes: &[u8], byte: u8) -> Option<usize>
    ensures place { result ≡ place_of byte bytes.now }
    ensures bound { IfSome result (λ place. place < length bytes.now) }
{
    for (place, other) in bytes.iter().enumerate() {
        if *other == byte {
            return Some(place);
        }
    }
    None
}

/// The first line; `None` where there are no bytes.
pub fn split_line(bytes: &[u8]) -> Option<FirstLine<'_>>
    ensures { option_map (λ l. (l.text.now, l.ended, l.after.now)) result ≡ first_line bytes.now }
{
    if bytes.is_empty() {
        return None;
    }
    let Some(end) = find_byte(bytes, b'\n') else {
        return Some(FirstLine {
            text: bytes,
            ended: false,
            after: &[],
        });
    };
    Some(FirstLine {
        text: &bytes[..end],
        ended: true,
        after: &bytes[end + 1..],
    })
}
