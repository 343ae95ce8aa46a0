//! What a range map asks of its values.
ghost use Rattle.std.specs.Prelude.{◌≡◌, ◌↔◌, IfOk, IsTrue};

use mrp_types::{Memory, Value};

/// Values that can be compared and given a second time.
pub trait Same: Sized {
    /// Whether the two are one value.
    fn same(&self, other: &Self) -> bool
        ensures { IsTrue result ↔ (self.now ≡ other.now) };

    /// An equal value.
    fn share(&self) -> Result<Self, Memory>
        ensures { IfOk result (λ value. value ≡ self.now) };
}

impl Same for Value {
    fn same(&self, other: &Self) -> bool {
        Value::same(self, other)
    }

    fn share(&self) -> Result<Self, Memory> {
        Value::share(self)
    }
}
