//! Names of ports and nets: bytes in any encoding.

ghost use Rattle.std.specs.Prelude.{◌≡◌, ◌↔◌, ◌<◌, ◌^◌, ℕ, List, IsTrue, IfOk, length, nat_eq, refl};
ghost use Rattle.std.specs.Coded.{coded_list, coded_ℕ};
ghost use Rattle.std.specs.Cmp.Lexicographic.{pointwise, slice_cmp};
ghost use Rattle.std.specs.Cmp.Rules.{comparing};
ghost use Rattle.std.specs.Cmp.{partial_order_from_own_ties};
ghost use Rattle.std.specs.Ordering.{nat_cmp, as_partial_cmp};
ghost use Rattle.std.proofs.Common.{rules};
ghost use Rattle.pulse_ids.specs.Names.{AreBytes, IsPortName};

use crate::memory::NoMemory;
use crate::quantities::Quantity;
use std::alloc::{AllocError, Global};
use std::cmp::Ordering;
use std::marker::Model;

/// A list of bytes that names a port or a net. It has no encoding and no limit of its own. Names compare byte
/// by byte.
#[derive(Debug, Drop)]
pub struct Name {
    bytes: Vec<u8>,
}

impl Model for Name {
    ghost use Rattle.std.specs.Prelude.{ℕ, List};
    ghost use Rattle.std.specs.Coded.{coded_list, coded_ℕ};
    ghost use Rattle.pulse_ids.specs.Names.{AreBytes};

    ghost Value = { List ℕ };

    ghost coded = { coded_list coded_ℕ };

    ghost view = { λ name. name.bytes.items };

    ghost invariant = { λ name. AreBytes name.bytes.items };
}

impl Name {
    /// A name with exactly these bytes.
    pub fn new(alloc: Global, bytes: &[u8]) -> Result<Name, NoMemory>
        ensures { IfOk result (λ name. name ≡ bytes.now) }
    {
        let bytes = copied(alloc, bytes)?;
        Ok(Name { bytes })
    }

    /// The bytes.
    pub fn bytes(&self) -> &[u8]
        ensures value { result.now ≡ self.now }
        ensures bytes { AreBytes self.now }
    {
        self.bytes.as_slice()
    }

    /// Whether it may name a port: it has from 1 byte to the greatest number of them, and no line feed.
    pub fn is_port_name(&self) -> bool
        ensures { IsTrue result ↔ IsPortName self.now }
    {
        let bytes = self.bytes();
        !bytes.is_empty()
            && bytes.len() as u64 <= Quantity::NameBytes.greatest()
            && bytes.iter().all(|byte| *byte != b'\n')
    }
}

/// A list of these bytes.
fn copied(alloc: Global, bytes: &[u8]) -> Result<Vec<u8>, NoMemory>
    ensures items { IfOk result (λ list. list.items ≡ bytes.now) }
    ensures bytes { IfOk result (λ list. AreBytes list.items) }
{
    let mut list = Vec::with_capacity(alloc, bytes.len())?;
    for byte in bytes {
        list.push(*byte)?;
    }
    Ok(list)
}

impl Clone for Name {
    ghost is_clone = { λ name copy. copy ≡ name };

    fn clone(&self) -> Result<Name, AllocError> {
        Ok(Name {
            bytes: self.bytes.clone()?,
        })
    }
}

impl PartialEq for Name {
    ghost eq = { pointwise nat_eq };

    ghost laws = { Prim.search (comparing, rules) };

    fn eq(&self, other: &Name) -> bool {
        self.bytes == other.bytes
    }
}

impl Eq for Name {
    ghost laws = { Prim.search (comparing, rules) };
}

impl PartialOrd for Name {
    ghost partial_cmp = { as_partial_cmp (slice_cmp nat_cmp) };

    ghost laws = { partial_order_from_own_ties (Prim.search (comparing, rules)) (Prim.search (comparing, rules)) };

    fn partial_cmp(&self, other: &Name) -> Option<Ordering> {
        Some(self.cmp(other))
    }
}

impl Ord for Name {
    ghost cmp = { slice_cmp nat_cmp };

    ghost total = { Prim.search (comparing, rules) };

    ghost matches_partial_cmp = { λ x y. refl };

    ghost matches_eq = { Prim.search (comparing, rules) };

    fn cmp(&self, other: &Name) -> Ordering {
        self.bytes.cmp(&other.bytes)
    }
}
