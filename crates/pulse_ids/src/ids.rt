//! The five kinds of numbers, as one generic type at five kinds.

ghost use Rattle.std.specs.Prelude.{◌≡◌, ℕ};
ghost use Rattle.std.proofs.Common.{ap};

use std::marker::PhantomData;

/// A number of one kind: it names one item of one kind of table.
pub trait Ident: Copy {
    /// The number, without its kind.
    ghost number_of: { Self → ℕ };

    /// The identifier with the number `n`.
    fn new(n: u32) -> Self
        ensures { number_of result ≡ n };

    /// The number.
    fn number(self) -> u32
        ensures { result ≡ number_of self };

    /// Two of one kind with one number are the same.
    ghost exact: { (x y : Self) → number_of x ≡ number_of y → x ≡ y };
}

/// A 32-bit number of the kind `K`. It compares, orders and hashes as its number.
#[derive(Clone, Copy, Debug, PartialEq, Eq, Hash, PartialOrd, Ord)]
pub struct Id<K> {
    pub(crate) number: u32,
    pub(crate) kind: PhantomData<K>,
}

/// The kind of the nets of a source machine.
#[derive(Clone, Copy, Debug, PartialEq, Eq, Hash, PartialOrd, Ord)]
pub struct NetKind;

/// The kind of the wires of a netlist.
#[derive(Clone, Copy, Debug, PartialEq, Eq, Hash, PartialOrd, Ord)]
pub struct WireKind;

/// The kind of the cells of a netlist.
#[derive(Clone, Copy, Debug, PartialEq, Eq, Hash, PartialOrd, Ord)]
pub struct CellKind;

/// The kind of the input or output rails of a netlist.
#[derive(Clone, Copy, Debug, PartialEq, Eq, Hash, PartialOrd, Ord)]
pub struct RailKind;

/// The kind of the nodes of an and-inverter graph.
#[derive(Clone, Copy, Debug, PartialEq, Eq, Hash, PartialOrd, Ord)]
pub struct NodeKind;

/// A net of a source machine. Net 0 is the constant false.
pub type NetId = Id<NetKind>;

/// A wire of a netlist, numbered from 0.
pub type WireId = Id<WireKind>;

/// A cell of a netlist, by its line among the cells, from 0.
pub type CellId = Id<CellKind>;

/// A rail of a netlist, by its line among the input rails or the output rails, from 0.
pub type RailId = Id<RailKind>;

/// A node of an and-inverter graph. Node 0 is the constant false.
pub type NodeId = Id<NodeKind>;

impl<K: Copy> Ident for Id<K> {
    ghost number_of = { λ id. id.number };

    ghost exact = { λ x y e. ap (λ n. record { number = n; kind = x.kind }) e };

    fn new(n: u32) -> Self {
        Id {
            number: n,
            kind: PhantomData,
        }
    }

    fn number(self) -> u32 {
        self.number
    }
}
