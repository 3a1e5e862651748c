//! Where the numbers of names stand.

ghost use Rattle.std.specs.Prelude.{◌≡◌, ◌≤◌, ◌<◌, ◌+◌, ◌*◌, ◌^◌, ℕ, [], Some, None, IfOk, OnOk, IfSome, IfNone, length, get_or, replicate};
ghost use Rattle.numbered_names.specs.Names.{number_in, HasNumber, AreNumbered};
ghost use Rattle.numbered_names.specs.NameTables.{hash_with, hash_of, start_of, end_of, AreTaken, overflow_at, IsKept, OthersStay, AreKept};

use crate::name_texts::NameTexts;
use pulse_ids::NoMemory;
use std::alloc::Global;
use std::collections::BTreeMap;

/// How many slots a window has at most.
const WINDOW: usize = 8;

/// Slots, each free, which is 0, or with the number of a name. The hash of a name says where its window of slots begins, and
/// its number stands at the first one that was free there. Only where none was, the overflow has it: a table in the order of
/// the names' bytes. So names of equal hashes, which a stranger may choose, cost a logarithm and no more. A number that is no
/// name's does no harm, since the bytes of the name are compared wherever a number is found.
#[derive(Debug, Drop)]
pub(crate) struct NameTable {
    alloc: Global,
    pub(crate) slots: Vec<u32>,
    pub(crate) overflow: BTreeMap<Vec<u8>, u32>,
}

impl NameTable {
    /// A table without slots. It takes no memory.
    pub(crate) fn empty(alloc: Global) -> NameTable
        ensures { result.slots.items ≡ [] }
    {
        NameTable {
            alloc,
            slots: Vec::new(alloc),
            overflow: BTreeMap::new(alloc),
        }
    }

    /// A table of so many slots, which are free. It takes four bytes for each.
    fn free(alloc: Global, count: usize) -> Result<NameTable, NoMemory>
        ensures { IfOk result (λ table. table.slots.items ≡ replicate count 0) }
    {
        Ok(NameTable {
            alloc,
            slots: vec![in alloc; 0u32; count]?,
            overflow: BTreeMap::new(alloc),
        })
    }

    /// The number of a name: in constant time, or where its window is full in time logarithmic in the overflow.
    pub(crate) fn find(&self, texts: &NameTexts, name: &[u8]) -> Option<u32>
        requires numbered { AreNumbered texts.now }
        requires kept { AreKept texts.now self.now.slots.items self.now.overflow }
        ensures { result ≡ number_in texts.now name.now }
    {
        let start = start_of(self.slots.len(), name);
        let end = taken_end(&self.slots, start);
        if let Some(number) = found(&self.slots, start, end, texts, name) {
            return Some(number);
        }
        if end < end_of(self.slots.len(), start) {
            return None;
        }
        self.overflowed(texts, name)
    }

    /// The number of a name that stands in the overflow.
    fn overflowed(&self, texts: &NameTexts, name: &[u8]) -> Option<u32>
        ensures some { IfSome result (λ number. HasNumber texts.now number name.now) }
        ensures none { IfNone result ((number : ℕ) → overflow_at self.now.overflow name.now ≡ Some number → HasNumber texts.now number name.now → ⊥) }
    {
        let number = *self.overflow.get(name)?;
        if texts.has(number, name) {
            Some(number)
        } else {
            None
        }
    }

    /// Puts a number where its name is looked for, in the time of a look. What is kept stays so, also where memory is refused.
    pub(crate) fn put(&mut self, name: &[u8], number: u32) -> Result<(), NoMemory>
        ensures put { OnOk result (1 ≤ number → IsKept self.new.slots.items self.new.overflow number name.now) }
        ensures kept { OthersStay self.old.slots.items self.old.overflow name.now self.new.slots.items self.new.overflow }
        ensures count { length self.new.slots.items ≡ length self.old.slots.items }
    {
        let start = start_of(self.slots.len(), name);
        let end = taken_end(&self.slots, start);
        if end < end_of(self.slots.len(), start) {
            self.slots[end] = number;
            return Ok(());
        }
        let key = Vec::from_slice(self.alloc, name)?;
        self.overflow.insert(key, number)?;
        Ok(())
    }

    /// Makes the table anew, with four slots for each name, where one name more would have more than half of the slots. In the
    /// mean a name is put so at most twice. Where memory is refused nothing changes.
    pub(crate) fn widen(&mut self, texts: &NameTexts) -> Result<(), NoMemory>
        requires numbered { AreNumbered texts.now }
        requires few { length texts.now ≤ 2 ^ 19 }
        requires kept { AreKept texts.now self.old.slots.items self.old.overflow }
        ensures kept { AreKept texts.now self.new.slots.items self.new.overflow }
        ensures room { OnOk result (2 * (length texts.now + 1) ≤ length self.new.slots.items) }
    {
        let names = texts.len();
        if self.slots.len() < 2 * (names + 1) {
            *self = table_of(self.alloc, (4 * names).max(64), texts)?;
        }
        Ok(())
    }
}

/// A table of so many slots that keeps the numbers of all these names, in the time of a look for each.
fn table_of(alloc: Global, count: usize, texts: &NameTexts) -> Result<NameTable, NoMemory>
    requires numbered { AreNumbered texts.now }
    requires few { length texts.now ≤ 2 ^ 19 }
    ensures kept { IfOk result (λ table. AreKept texts.now table.slots.items table.overflow) }
    ensures count { IfOk result (λ table. length table.slots.items ≡ count) }
{
    let mut table = NameTable::free(alloc, count)?;
    for place in 0..texts.len() {
        table.put(texts.get(place), place as u32 + 1)?;
    }
    Ok(table)
}

/// A hash of one byte more.
fn hash_with(hash: u32, byte: u8) -> u32
    ensures { result ≡ hash_with hash byte }
{
    (hash ^ u32::from(byte)).wrapping_mul(16_777_619)
}

/// A hash of bytes.
fn hash_of(bytes: &[u8]) -> u32
    ensures { result ≡ hash_of bytes.now }
{
    bytes
        .iter()
        .fold(2_166_136_261u32, |hash, byte| hash_with(hash, *byte))
}

/// Where the window of a name begins. So many slots are best a power of 2.
fn start_of(count: usize, name: &[u8]) -> usize
    ensures is { result ≡ start_of count name.now }
    ensures within { result ≤ count }
{
    hash_of(name) as usize & count.saturating_sub(1)
}

/// Where the window that begins at a slot ends.
fn end_of(count: usize, start: usize) -> usize
    requires { start ≤ count }
    ensures { result ≡ end_of count start }
{
    start.saturating_add(WINDOW).min(count)
}

/// The first free slot of the window that begins at this one, or the window's end.
fn taken_end(slots: &[u32], start: usize) -> usize
    requires { start ≤ length slots.now }
    ensures least { start ≤ result }
    ensures most { result ≤ end_of (length slots.now) start }
    ensures taken { AreTaken slots.now start result }
    ensures ends { result < end_of (length slots.now) start → get_or slots.now result 0 ≡ 0 }
{
    let end = end_of(slots.len(), start);
    for at in start..end {
        if slots[at] == 0 {
            return at;
        }
    }
    end
}

/// The number of a name among those of the slots from one on, up to another.
fn found(slots: &[u32], start: usize, end: usize, texts: &NameTexts, name: &[u8]) -> Option<u32>
    requires { end ≤ length slots.now }
    ensures some { IfSome result (λ number. HasNumber texts.now number name.now) }
    ensures none { IfNone result ((at : ℕ) → start ≤ at → at < end → HasNumber texts.now (get_or slots.now at 0) name.now → ⊥) }
{
    for at in start..end {
        let number = slots[at];
        if texts.has(number, name) {
            return Some(number);
        }
    }
    None
}
