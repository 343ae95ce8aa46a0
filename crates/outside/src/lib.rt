//! What the system reads from and writes to: traits whose ghost members say what an object holds, objects in
//! memory that tell it, and adapters over real readers and writers, which don't.
//!
//! Each object counts its faults. An answer `Failed` raises the count by one, and no other answer moves it; so a
//! caller that answers a failure shows the rise, and can't invent one.
#![tactic(auto)]

mod held;
mod memory;
mod refused;
mod sink;
mod source;

pub use held::{new_piece, write_piece};
pub use memory::{MemSink, MemSource};
pub use refused::Refused;
pub use sink::{Sink, WriteSink, write_all};
pub use source::{ReadSource, Source, read_front};
