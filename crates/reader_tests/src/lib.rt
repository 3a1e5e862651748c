//! The tests of what only calls of the readers show. What a command shows is a case of text. Outside tests there is no code here.
#![tactic(auto)]

#[cfg(test)]
mod decimals;
#[cfg(test)]
mod netlists;
#[cfg(test)]
mod sources;
