//! The gate steps on a pair of areas: an area counts with its whole body or not at all, at each moment.
#![tactic(auto)]

mod looking;
mod pair;
mod reading;
mod renewing;
pub mod rows;
mod steps;

pub use looking::survey;
pub use pair::{Head, Pair, Standing, SurveyFault, other};
pub use reading::read_all;
pub use renewing::renew;
pub use steps::{found, open_gate, retire};
