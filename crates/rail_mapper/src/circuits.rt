//! What is to be mapped.

use cell_netlist::{Ask, Version};
use graph_build::Built;
use rail_demand::Demand;

/// A graph with its needed rails, which output rails are asked for, and the version of the netlist.
#[derive(Clone, Copy)]
pub(crate) struct Circuit<'a> {
    pub(crate) built: &'a Built,
    pub(crate) demand: &'a Demand,
    pub(crate) ask: Ask,
    pub(crate) version: Version,
}
