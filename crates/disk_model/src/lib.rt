//! A disk of four areas that can stop at every moment, and what a crash then leaves of them.
#![tactic(auto)]

mod area;
mod areas;
mod call;
mod crash;
mod disk;
mod octets;
mod plan;
pub mod rows;
mod sim;
mod undo;

pub use area::{Area, Image, Refused};
pub use areas::Areas;
pub use call::Call;
pub use disk::Disk;
pub use octets::Octets;
pub use plan::{Plan, Trouble};
pub use sim::SimDisk;
