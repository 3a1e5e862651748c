//! The pairs of a graph's conjunctions in order, with an index of them or without.

ghost use Rattle.std.specs.Prelude.{◌≡◌, [], length, slice_get, Some, IfSome, IfNone, IfOk, OnErr};
ghost use Rattle.aig_core.specs.KeptPairs.{pairs_of, IsOnce, IsMissing, IsPlaced};

use crate::pairs::Pair;
use indexmap::IndexSet;
use pulse_ids::NoMemory;
use std::alloc::Global;

/// Pairs in order, none of them twice.
#[derive(Debug, Drop)]
pub(crate) enum KeptPairs {
    /// With an index, by which a pair's place is found.
    Indexed(IndexSet<Pair>),
    /// The pairs alone, in 8 bytes each.
    Listed(Vec<Pair>),
}

impl KeptPairs {
    /// No pairs. It takes no memory.
    pub(crate) fn new(alloc: Global) -> KeptPairs
        ensures { pairs_of result ≡ [] }
    {
        KeptPairs::Indexed(IndexSet::new(alloc))
    }

    /// The pairs.
    pub(crate) fn as_slice(&self) -> &[Pair]
        ensures { result.now ≡ pairs_of self.now }
    {
        match self {
            KeptPairs::Indexed(set) => set.as_slice(),
            KeptPairs::Listed(list) => list.as_slice(),
        }
    }

    /// How many pairs there are.
    pub(crate) fn len(&self) -> usize
        ensures { result ≡ length (pairs_of self.now) }
    {
        self.as_slice().len()
    }

    /// Gives the memory of the index back. Where no memory for the pairs alone is there, the index stays.
    pub(crate) fn drop_index(&mut self)
        ensures { pairs_of self.new ≡ pairs_of self.old }
    {
        if let KeptPairs::Indexed(set) = self {
            if let Ok(list) = Vec::from_slice(*set.allocator(), set.as_slice()) {
                *self = KeptPairs::Listed(list);
            }
        }
    }

    /// Makes the index where there is none. Where memory is refused, none is made.
    fn make_index(&mut self)
        requires { IsOnce (pairs_of self.old) }
        ensures { pairs_of self.new ≡ pairs_of self.old }
    {
        if let KeptPairs::Listed(list) = self {
            if let Ok(set) = indexed(*list.allocator(), list.as_slice()) {
                *self = KeptPairs::Indexed(set);
            }
        }
    }

    /// The place of the pair, which is added last where it is at none. Where memory is refused the pairs
    /// stay as they were, and a pair that is there is found all the same.
    pub(crate) fn place(&mut self, pair: Pair) -> Result<usize, NoMemory>
        requires { IsOnce (pairs_of self.old) }
        ensures placed { IfOk result (λ place. IsPlaced (pairs_of self.old) pair place (pairs_of self.new)) }
        ensures same { OnErr result (pairs_of self.new ≡ pairs_of self.old) }
        ensures missing { OnErr result (IsMissing (pairs_of self.old) pair) }
    {
        self.make_index();
        match self {
            KeptPairs::Indexed(set) => insert(set, pair),
            KeptPairs::Listed(list) => place_of(list.as_slice(), pair).ok_or(NoMemory),
        }
    }
}

/// The place of the pair in the set, where it is added last if it is at none.
fn insert(set: &mut IndexSet<Pair>, pair: Pair) -> Result<usize, NoMemory>
    ensures placed { IfOk result (λ place. IsPlaced set.old.keys pair place set.new.keys) }
    ensures same { OnErr result (set.new.keys ≡ set.old.keys) }
    ensures missing { OnErr result (IsMissing set.old.keys pair) }
{
    match set.insert_full(pair) {
        Ok((place, _)) => Ok(place),
        Err(_) => Err(NoMemory),
    }
}

/// The place of the pair in the list.
fn place_of(list: &[Pair], pair: Pair) -> Option<usize>
    ensures found { IfSome result (λ place. slice_get list.now place ≡ Some pair) }
    ensures missing { IfNone result (IsMissing list.now pair) }
{
    list.iter().position(|other| other.is(pair))
}

/// The pairs of a list with an index of them.
fn indexed(alloc: Global, list: &[Pair]) -> Result<IndexSet<Pair>, NoMemory>
    requires { IsOnce list.now }
    ensures { IfOk result (λ set. set.keys ≡ list.now) }
{
    let mut set = IndexSet::with_capacity(alloc, list.len())?;
    for pair in list {
        insert(&mut set, *pair)?;
    }
    Ok(set)
}
