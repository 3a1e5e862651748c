//! The tests of the base and the writer: cases as tables, one test a table. Outside tests there is no code here.
#![tactic(auto)]

#[cfg(test)]
mod netlists;
#[cfg(test)]
mod numbers;
#[cfg(test)]
mod orders;
#[cfg(test)]
mod ports;
#[cfg(test)]
mod texts;
