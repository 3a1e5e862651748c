//! The tests of machines, their graphs and the needed rails: cases as tables. Outside tests there is no code here.
#![tactic(auto)]

#[cfg(test)]
mod building;
#[cfg(test)]
mod circuits;
#[cfg(test)]
mod demands;
#[cfg(test)]
mod graphs;
#[cfg(test)]
mod greatest;
#[cfg(test)]
mod machines;
