//! An owned list of bytes.

ghost use Rattle.std.specs.Prelude.{◌≡◌};

use crate::Items;

/// Bytes in order.
pub type Octets = Items<u8>;

impl Items<u8> {
    /// The bytes in order.
    pub fn bytes(&self) -> &[u8]
        ensures { result.now ≡ self.now }
    {
        self.items()
    }
}
