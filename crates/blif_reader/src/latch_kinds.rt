//! The type and the control of latches.

use pulse_ids::Name;

/// The type and the control of a latch.
#[derive(Debug, Drop)]
pub struct LatchKind {
    /// Whether it takes its input at the control's rising edge, and not at the falling one.
    pub(crate) rises: bool,
    /// The name of its control.
    pub(crate) control: Name,
}
