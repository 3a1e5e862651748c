//! A sink that gathers small pieces and hands them on together.
//!
//! A sink that has failed once is not called again: what was gathered then goes nowhere.
#![tactic(auto)]

mod buffered;

pub use buffered::BufferedSink;
