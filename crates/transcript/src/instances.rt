//! The instances of a tuple.

use mrp_types::{Inst, Items};

/// The instances of a tuple, by ring.
pub type Instances = Items<Inst>;
