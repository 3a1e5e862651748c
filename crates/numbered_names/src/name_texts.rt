//! The texts of names.

ghost use Rattle.std.specs.Prelude.{◌≡◌, ◌↔◌, ◌<◌, ◌++◌, ◌∷◌, [], Some, IsTrue, OnOk, OnErr, length, slice_get};
ghost use Rattle.numbered_names.specs.Names.{HasNumber};

use flat_lists::FlatLists;
use pulse_ids::NoMemory;
use std::alloc::Global;
use std::marker::Model;

/// Texts in order. Each takes its bytes and one place more.
#[derive(Debug, Drop)]
pub(crate) struct NameTexts {
    // All its lists have ended.
    lists: FlatLists<u8>,
}

impl Model for NameTexts {
    ghost use Rattle.std.specs.Prelude.{◌≡◌, [], List, ℕ};

    ghost Value = { List (List ℕ) };

    ghost view = { λ texts. texts.lists.lists };

    ghost invariant = { λ texts. texts.lists.begun ≡ [] };
}

impl NameTexts {
    /// No texts. It takes no memory.
    pub(crate) fn new(alloc: Global) -> NameTexts
        ensures { result ≡ [] }
    {
        NameTexts {
            lists: FlatLists::new(alloc),
        }
    }

    /// How many texts there are.
    pub(crate) fn len(&self) -> usize
        ensures { result ≡ length self.now }
    {
        self.lists.len()
    }

    /// The text of a place from 0, in constant time.
    pub(crate) fn get(&self, place: usize) -> &[u8]
        requires { place < length self.now }
        ensures { slice_get self.now place ≡ Some result.now }
    {
        self.lists.get(place)
    }

    /// Whether this number from 1 is that of a text, in time linear in the text.
    pub(crate) fn has(&self, number: u32, text: &[u8]) -> bool
        ensures { IsTrue result ↔ HasNumber self.now number text.now }
    {
        let place = number as usize;
        1 <= place && place <= self.len() && self.get(place - 1) == text
    }

    /// Adds a text. Where memory is refused nothing changes.
    pub(crate) fn push(&mut self, text: &[u8]) -> Result<(), NoMemory>
        ensures ok { OnOk result (self.new ≡ self.old ++ text.now ∷ []) }
        ensures err { OnErr result (self.new ≡ self.old) }
    {
        self.lists.end_with(text)
    }
}
