//! The orders in which pulses are delivered.

ghost use Rattle.std.specs.Prelude.{◌≡◌, ◌<◌, ◌≤◌, ◌^◌};
ghost use Rattle.pulse_traces.specs.Orders.{place_of};

/// Which of the pending pulses is delivered next.
#[derive(Clone, Copy, Debug, PartialEq, Eq)]
pub enum DeliveryOrder {
    /// The one at place 0 of the queue.
    First,
    /// The one at its last place.
    Last,
    /// The one at a place that is mixed from this number, the step and how many are pending.
    Mix(u32),
}

impl DeliveryOrder {
    /// The place of the pulse that is delivered in a step below 2^63 where so many, from 1 to 4,194,304, are pending.
    pub(crate) fn place(self, step: u64, count: u64) -> u64
        requires step { step < 2 ^ 63 }
        requires some { 1 ≤ count }
        requires few { count ≤ 2 ^ 22 }
        ensures { result ≡ place_of self step count }
    {
        match self {
            DeliveryOrder::First => 0,
            DeliveryOrder::Last => count - 1,
            DeliveryOrder::Mix(number) => {
                let mixed = (number as u64 + step) % 4_294_967_296 * 2_654_435_761 % 4_294_967_296;
                mixed * count / 4_294_967_296
            }
        }
    }
}
