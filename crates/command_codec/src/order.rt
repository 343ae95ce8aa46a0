//! The order of keys: byte by byte.

ghost use Rattle.std.specs.Prelude.{◌≡◌};
ghost use Rattle.command_codec.specs.Grammar.{comes_after as comes_after_lem, ends as ends_lem};

use std::cmp::Ordering;

/// Whether `key` comes after `before`.
pub fn comes_after(before: &[u8], key: &[u8]) -> bool
    ensures { result ≡ comes_after_lem before.now key.now }
{
    before.cmp(key) == Ordering::Less
}

/// Whether `to` is no end of a scan, or comes after its begin.
pub fn ends(from: &[u8], to: &[u8]) -> bool
    ensures { result ≡ ends_lem from.now to.now }
{
    to.is_empty() || comes_after(from, to)
}
