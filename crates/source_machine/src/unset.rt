//! What a latch begins with where its source doesn't say.

ghost use Rattle.std.specs.Prelude.{◌≡◌};
ghost use Rattle.source_machine.specs.Unset.{first_bit};

/// What becomes of a latch whose source gives it no first state.
#[derive(Clone, Copy, Debug, PartialEq, Eq)]
pub enum Unset {
    /// The source is refused.
    Refuse,
    /// The latch begins with 0.
    Zero,
    /// The latch begins with 1.
    One,
}

impl Unset {
    /// The first state of such a latch, or none where its source is refused.
    pub fn first_bit(self) -> Option<bool>
        ensures { result ≡ first_bit self }
    {
        match self {
            Unset::Refuse => None,
            Unset::Zero => Some(false),
            Unset::One => Some(true),
        }
    }
}
