//! Lists of lines.

use crate::Line;
use mrp_types::Items;

/// Lines in order.
pub type Lines = Items<Line>;
