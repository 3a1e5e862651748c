//! The tests of the checker, of orders of cells and of reports over netlists that no text of a case holds. Outside tests there is no code here.
#![tactic(auto)]

#[cfg(test)]
mod chains;
#[cfg(test)]
mod depths;
#[cfg(test)]
mod nets;
#[cfg(test)]
mod wires;
