//! Whether the numbers, names and sizes of a machine are in range.

ghost use Rattle.std.specs.Prelude.{◌≡◌, ◌↔◌, ◌^◌, ◌-◌, min, length, All, IfSome, IsTrue};
ghost use Rattle.source_machine.specs.Machines.{literal_of, latch_of, equation_of, machine_of};
ghost use Rattle.pulse_ids.specs.Names.{IsPortName};
ghost use Rattle.source_machine.specs.Fitting.{IsNumbered, LiteralFits, LatchFits, EquationFits, NamesFit, RawNetsFit, IsWithinLimits, Fits, size_of, size_of_cubes};

use crate::covers::Cover;
use crate::machines::{Equation, Latch, RawMachine};
use pulse_ids::{Ident, Lit, Name, NetId, Quantity};

fn is_numbered(nets: u32, net: NetId) -> bool
    ensures { IsTrue result ↔ IsNumbered nets net.number }
{
    1 <= net.number() && net.number() <= nets
}

fn literal_fits(nets: u32, literal: Lit) -> bool
    ensures { IsTrue result ↔ LiteralFits nets (literal_of literal) }
{
    literal.net().number() <= nets
}

fn latch_fits(nets: u32, latch: Latch) -> bool
    ensures { IsTrue result ↔ LatchFits nets (latch_of latch) }
{
    is_numbered(nets, latch.out) && literal_fits(nets, latch.next)
}

fn cube_fits(nets: u32, cube: &Cover) -> bool
    ensures { IsTrue result ↔ All (λ lit. LiteralFits nets (literal_of lit)) cube.now }
{
    cube.literals()
        .iter()
        .all(|literal| literal_fits(nets, *literal))
}

fn is_name_or_none(name: &Option<Name>) -> bool
    ensures { IsTrue result ↔ IfSome name.now IsPortName }
{
    match name {
        Some(name) => name.is_port_name(),
        None => true,
    }
}

fn names_fit(ports: usize, names: &[Option<Name>]) -> bool
    ensures { IsTrue result ↔ NamesFit ports names.now }
{
    names.len() == ports && names.iter().all(|name| is_name_or_none(name))
}

impl Equation {
    fn cubes_fit(&self, nets: u32) -> bool
        ensures { IsTrue result
            ↔ All (λ cube. All (λ lit. LiteralFits nets (literal_of lit)) cube) self.now.rows.items }
    {
        self.rows.iter().all(|cube| cube_fits(nets, cube))
    }

    fn fits(&self, nets: u32) -> bool
        ensures { IsTrue result ↔ EquationFits nets (equation_of self.now) }
    {
        is_numbered(nets, self.net) && self.cubes_fit(nets)
    }

    /// The cubes and cube literals, or 2^64 - 1 where there are more.
    #[tactic(auto, using(crate::proofs::PlainLists::size_step, crate::proofs::PlainLists::size_done))]
    fn size(&self) -> u64
        ensures { result ≡ min (size_of_cubes (equation_of self.now).cubes) (2 ^ 64 - 1) }
    {
        let mut size: u64 = 0;
        for cube in &self.rows {
            size = size.saturating_add(1 + cube.len() as u64);
        }
        size
    }
}

impl RawMachine {
    /// Whether every number, name and quantity of the machine is in range: each net is at most
    /// `nets`, a net that something drives is at least 1, each port has a name or none, a name has
    /// 1 to 1,023 bytes and no LF, and no quantity is above its limit. It takes linear time.
    pub fn fits(&self) -> bool
        ensures { IsTrue result ↔ Fits (machine_of self.now) }
    {
        self.nets_fit() && self.names_fit() && self.is_within_limits()
    }

    fn nets_fit(&self) -> bool
        ensures { IsTrue result ↔ RawNetsFit self.now }
    {
        self.inputs_fit() && self.latches_fit() && self.equations_fit() && self.outputs_fit()
    }

    fn inputs_fit(&self) -> bool
        ensures { IsTrue result ↔ All (λ net. IsNumbered self.now.nets net.number) self.now.inputs.items }
    {
        let nets = self.nets;
        self.inputs.iter().all(|net| is_numbered(nets, *net))
    }

    fn latches_fit(&self) -> bool
        ensures { IsTrue result
            ↔ All (λ latch. LatchFits self.now.nets (latch_of latch)) self.now.latches.items }
    {
        let nets = self.nets;
        self.latches.iter().all(|latch| latch_fits(nets, *latch))
    }

    fn equations_fit(&self) -> bool
        ensures { IsTrue result
            ↔ All (λ x. EquationFits self.now.nets (equation_of x)) self.now.equations.items }
    {
        let nets = self.nets;
        self.equations.iter().all(|equation| equation.fits(nets))
    }

    fn outputs_fit(&self) -> bool
        ensures { IsTrue result
            ↔ All (λ lit. LiteralFits self.now.nets (literal_of lit)) self.now.outputs.items }
    {
        let nets = self.nets;
        self.outputs
            .iter()
            .all(|literal| literal_fits(nets, *literal))
    }

    fn names_fit(&self) -> bool
        ensures { IsTrue result
            ↔ (NamesFit (length self.now.inputs.items) self.now.input_names.items
            × NamesFit (length self.now.outputs.items) self.now.output_names.items) }
    {
        names_fit(self.inputs.len(), self.input_names.as_slice())
            && names_fit(self.outputs.len(), self.output_names.as_slice())
    }

    fn is_within_limits(&self) -> bool
        ensures { IsTrue result ↔ IsWithinLimits (machine_of self.now) }
    {
        self.inputs.len() as u64 <= Quantity::Inputs.greatest()
            && self.outputs.len() as u64 <= Quantity::Outputs.greatest()
            && self.latches.len() as u64 <= Quantity::Latches.greatest()
            && self.nets as u64 <= Quantity::Nets.greatest()
            && self.size() <= Quantity::Size.greatest()
    }

    /// The size of the source, or 2^64 - 1 where it is greater.
    #[tactic(auto, using(crate::proofs::PlainLists::equations_step, crate::proofs::PlainLists::equations_done))]
    pub(crate) fn size(&self) -> u64
        ensures { result ≡ min (size_of (machine_of self.now)) (2 ^ 64 - 1) }
    {
        let mut size: u64 = 0;
        for equation in &self.equations {
            size = size.saturating_add(equation.size());
        }
        size
    }
}
