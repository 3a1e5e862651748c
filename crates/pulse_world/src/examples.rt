//! What the law says of small netlists.

ghost use Rattle.pulse_world.specs.Examples.{HalfAdderDelivers, ConstantDelivers, ToggleDelivers, InverterDelivers, TwofoldDelivers};
ghost use Rattle.pulse_world.specs.NeededRules.{RulesAreNeeded};

/// Under every order, and on any vectors, a half adder delivers the sum and the carry of each vector, a constant
/// its bit, a toggle flip-flop 0 and 1 in turn, and an inverter the complement of each bit.
///
/// A netlist may have two output rails of one port and sign that contradict each other. It delivers no bits of its port then,
/// and still each rail pulses as its wire's bit says.
///
/// Without the rule of one driver a wire, of one reader a wire, of grounded outputs, of roles or of preloads, some
/// netlist delivers no bits.
pub fn examples_deliver()
    ensures half_adder { HalfAdderDelivers }
    ensures constant { ConstantDelivers }
    ensures toggle { ToggleDelivers }
    ensures inverter { InverterDelivers }
    ensures twofold { TwofoldDelivers }
    ensures rules { RulesAreNeeded }
{}
