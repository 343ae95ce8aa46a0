//! The written bytes of a batch, held once and shared.

ghost use Rattle.std.specs.Prelude.{◌≡◌, List, ℕ, IfOk};

use crate::Memory;
use bytes::Bytes;
use std::alloc::Global;
use std::marker::Model;

/// Bytes that votes, learners and frames share; contracts see the list of them.
#[derive(Debug, Drop)]
pub struct Payload {
    shared: Bytes,
}

impl Model for Payload {
    ghost Value = { List ℕ };

    ghost view = { λ p. p.shared };
}

impl Payload {
    /// A copy of these bytes.
    pub fn from_slice(alloc: Global, bytes: &[u8]) -> Result<Self, Memory>
        ensures { IfOk result (λ payload. payload ≡ bytes.now) }
    {
        Ok(Payload {
            shared: Bytes::copy_from_slice(alloc, bytes)?,
        })
    }

    /// The same bytes once more, without a copy of them.
    pub fn share(&self) -> Result<Self, Memory>
        ensures { IfOk result (λ payload. payload ≡ self.now) }
    {
        Ok(Payload {
            shared: self.shared.clone()?,
        })
    }

    /// The bytes in order.
    pub fn bytes(&self) -> &[u8]
        ensures { result.now ≡ self.now }
    {
        &self.shared
    }
}
