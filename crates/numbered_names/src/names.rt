//! Names and their numbers.

ghost use Rattle.std.specs.Prelude.{◌≡◌, ◌<◌, ◌≤◌, ◌-◌, ◌^◌, ◌+◌, ◌++◌, ◌∷◌, [], List, None, Some, IfOk, IfSome, OnOk, OnErr, length, slice_get};
ghost use Rattle.numbered_names.specs.Names.{number_in};

use crate::name_tables::NameTable;
use crate::name_texts::NameTexts;
use pulse_ids::{Name, NoMemory};
use std::alloc::Global;
use std::marker::Model;

/// Names numbered from 1 by first appearance, at most 2^19 of them, no two equal. A name is any list of bytes, also an empty one.
/// The bytes of each stand once, and a second time only where the table's overflow has its number. Beside them a name takes
/// 8 bytes, and from 8 to 16 of the table.
#[derive(Debug, Drop)]
pub struct Names {
    alloc: Global,
    texts: NameTexts,
    table: NameTable,
}

impl Model for Names {
    ghost use Rattle.std.specs.Prelude.{List, ℕ, ◌≤◌, ◌^◌, length};
    ghost use Rattle.std.specs.Coded.{coded_list, coded_ℕ};
    ghost use Rattle.numbered_names.specs.Names.{AreNumbered};
    ghost use Rattle.numbered_names.specs.NameTables.{AreKept};

    ghost Value = { List (List ℕ) };

    ghost coded = { coded_list (coded_list coded_ℕ) };

    ghost view = { λ names. names.texts };

    ghost invariant = { λ names. AreKept names.texts names.table.slots.items names.table.overflow × AreNumbered names.texts × (length names.texts ≤ 2 ^ 19) };
}

impl Names {
    /// No names. It takes no memory.
    pub fn new(alloc: Global) -> Names
        ensures { result ≡ [] }
    {
        Names {
            alloc,
            texts: NameTexts::new(alloc),
            table: NameTable::empty(alloc),
        }
    }

    /// How many names there are, which is the number of the last one: at most 2^19. It takes constant time.
    pub fn len(&self) -> u32
        ensures len { result ≡ length self.now }
        ensures few { length self.now ≤ 2 ^ 19 }
    {
        self.texts.len() as u32
    }

    /// The number of a name, from 1 to `len`, or `None` where it is none of the names. It takes constant time, or where the slots
    /// that its hash allows are full time logarithmic in the names, and beside that time linear in the name.
    #[tactic(auto, using(crate::proofs::NameNumbers::number_small))]
    pub fn find(&self, name: &[u8]) -> Option<u32>
        ensures found { result ≡ number_in self.now name.now }
        ensures few { IfSome result (λ number. number ≤ 2 ^ 19) }
    {
        self.table.find(&self.texts, name)
    }

    /// Gives a new name the next number, and answers it. The name may have no number yet, and there must be fewer than 2^19 names.
    /// It takes the time of `find` but where the table is made anew: in the mean each name is put there at most three times. The
    /// one error is that memory is refused, and then nothing changes.
    pub fn add(&mut self, name: &[u8]) -> Result<u32, NoMemory>
        requires new { number_in self.old name.now ≡ None }
        requires room { length self.old < 2 ^ 19 }
        ensures ok { OnOk result (self.new ≡ self.old ++ name.now ∷ []) }
        ensures number { IfOk result (λ number. number ≡ length self.old + 1) }
        ensures err { OnErr result (self.new ≡ self.old) }
    {
        self.widen()?;
        let number = self.len() + 1;
        self.put(name, number)?;
        Ok(number)
    }

    // Makes room for one name more in the table.
    fn widen(&mut self) -> Result<(), NoMemory>
        ensures { self.new ≡ self.old }
    {
        self.table.widen(&self.texts)
    }

    // Keeps a new name and its number. The number comes first: where there is no memory for the name it does no harm.
    fn put(&mut self, name: &[u8], number: u32) -> Result<(), NoMemory>
        requires new { number_in self.old name.now ≡ None }
        requires room { length self.old < 2 ^ 19 }
        requires next { number ≡ length self.old + 1 }
        ensures ok { OnOk result (self.new ≡ self.old ++ name.now ∷ []) }
        ensures err { OnErr result (self.new ≡ self.old) }
    {
        self.table.put(name, number)?;
        self.texts.push(name)?;
        Ok(())
    }

    /// A copy of the name of a number from 1 to `len`, in time linear in the name. The one error is that memory is refused.
    pub fn name(&self, number: u32) -> Result<Name, NoMemory>
        requires least { 1 ≤ number }
        requires most { number ≤ length self.now }
        ensures { IfOk result (λ name. slice_get self.now (number - 1) ≡ Some name) }
    {
        let name = Name::new(self.alloc, self.texts.get(number as usize - 1))?;
        Ok(name)
    }
}
