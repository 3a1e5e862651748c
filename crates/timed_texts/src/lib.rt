//! The text of a timed simulation: how long the phases of each cycle take, the bound that none of them exceeds, and its
//! path.
#![tactic(auto)]

mod cycles;
mod laws;
mod timings;
mod writing;

pub use cycles::PhaseTimes;
pub use laws::{one_timing, phases_within_bound};
pub use timings::Timing;
pub use writing::write_timing;
