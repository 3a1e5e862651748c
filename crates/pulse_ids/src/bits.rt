//! Lists of bits, packed in words of 64.

ghost use Rattle.std.specs.Prelude.{◌≡◌, ◌<◌, ◌*◌, ℕ, Some, false, length, replicate, IfOk, slice_get, slice_set, if◌then◌else◌, ◌==◌};
ghost use Rattle.pulse_ids.specs.Bits.{bit_of_word, bit_in_words, HasBitPut};

use crate::ids::Ident;
use crate::memory::NoMemory;
use std::alloc::Global;
use std::marker::{Model, PhantomData};

/// A list of bits that are numbered from 0 by the identifiers `I`. It takes one bit of memory for each, up to
/// a word of 64, and a bit is read and written in constant time.
#[derive(Debug, Drop)]
pub struct Bits<I: Ident> {
    words: Vec<u64>,
    count: u32,
    kind: PhantomData<I>,
}

impl<I: Ident> Model for Bits<I> {
    ghost use Rattle.std.specs.Prelude.{List, Bool};
    ghost use Rattle.std.specs.Coded.{coded_list, coded_bool};
    ghost use Rattle.pulse_ids.specs.Bits.{bits_of, HasWords};

    ghost Value = { List Bool };

    ghost coded = { coded_list coded_bool };

    ghost view = { λ bits. bits_of bits.words.items bits.count };

    ghost invariant = { λ bits. HasWords bits.words.items bits.count };
}

impl<I: Ident> Bits<I> {
    /// `n` bits that are all 0.
    #[tactic(auto, using(crate::proofs::PackedBits::bits_of_zeros_from))]
    pub fn filled(alloc: Global, n: u32) -> Result<Bits<I>, NoMemory>
        ensures { IfOk result (λ bits. bits ≡ replicate n false) }
    {
        let words = zero_words(alloc, (n as usize).div_ceil(64))?;
        Ok(Bits {
            words,
            count: n,
            kind: PhantomData,
        })
    }

    /// How many bits there are, always below 2^32.
    #[tactic(auto, using(crate::proofs::PackedBits::length_bits_of))]
    pub fn len(&self) -> u32
        ensures { result ≡ length self.now }
    {
        self.count
    }

    /// The bit with this number, which is below the length. It takes no memory.
    #[tactic(auto, using(crate::proofs::PackedBits::bits_of_at, crate::proofs::PackedBits::length_bits_of))]
    pub fn get(&self, id: I) -> bool
        requires { I.number_of id < length self.now }
        ensures { slice_get self.now (I.number_of id) ≡ Some result }
    {
        read_bit(&self.words, id.number())
    }

    /// Sets the bit with this number, which is below the length. All other bits stay. It takes no memory.
    #[tactic(auto, using(crate::proofs::PackedBits::bits_of_set, crate::proofs::PackedBits::length_bits_of))]
    pub fn set(&mut self, id: I, bit: bool)
        requires { I.number_of id < length self.old }
        ensures { self.new ≡ slice_set self.old (I.number_of id) bit }
    {
        write_bit(&mut self.words, id.number(), bit);
    }
}

/// So many words that are 0.
fn zero_words(alloc: Global, count: usize) -> Result<Vec<u64>, NoMemory>
    ensures { IfOk result (λ words. words.items ≡ replicate count 0) }
{
    Ok(vec![in alloc; 0u64; count]?)
}

/// The bit of a number, for which there is a word.
fn read_bit(words: &[u64], number: u32) -> bool
    requires { number < 64 * length words.now }
    ensures { result ≡ bit_in_words words.now number }
{
    has_bit(words[(number / 64) as usize], number % 64)
}

/// Writes the bit of a number, for which there is a word.
fn write_bit(words: &mut Vec<u64>, number: u32, bit: bool)
    requires { number < 64 * length words.old.items }
    ensures bits { HasBitPut words.old.items number bit words.new.items }
    ensures width { length words.new.items ≡ length words.old.items }
{
    let at = (number / 64) as usize;
    words[at] = with_bit(words[at], number % 64, bit);
}

/// Whether a word has a bit at a place below 64.
fn has_bit(word: u64, place: u32) -> bool
    requires { place < 64 }
    ensures { result ≡ bit_of_word word place }
{
    word & (1u64 << place) != 0
}

/// The word with a bit at a place below 64, and its own bits at all others.
fn with_bit(word: u64, place: u32, bit: bool) -> u64
    requires { place < 64 }
    ensures { (other : ℕ) → other < 64 → bit_of_word result other ≡ (if place == other then bit else bit_of_word word other) }
{
    let mask = 1u64 << place;
    if bit { word | mask } else { word & !mask }
}
