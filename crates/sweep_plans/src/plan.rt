//! The changes of a sweep: the places, and the changes at each.
ghost use Rattle.std.specs.Prelude.{◌≤◌, ◌^◌, length};

use crate::change::Change;
use crate::glitches::glitches;
use crate::request::Range;
use crate::standing::Standing;
use crate::values::{byte_changes, byte_values, flips, half_changes, others, word_changes};
use std::alloc::{AllocError, Global};

/// The number of bits of a word, of a register and of pc.
pub(crate) const WORD_BITS: u32 = 32;

/// The number of bits of a half.
pub(crate) const HALF_BITS: u32 = 16;

/// The instruction that does nothing, of 32 bits.
const NO_OP: &[u32] = &[0x13];

/// The same, of 16 bits.
const HALF_NO_OP: &[u32] = &[1];

/// Consecutive places from the first one up to an end. Bytes are numbered by their offsets in the input, words by a quarter of their
/// addresses, and steps by their numbers.
#[derive(Clone, Copy)]
pub struct Places {
    /// The first place.
    pub first: u32,
    /// The end, which isn't one of the places.
    pub end: u32,
}

impl Places {
    ghost use Rattle.std.specs.Prelude.{◌≡◌, ◌<◌, IfSome};
    ghost use Rattle.sweep_plans.specs.Plans.{count, nth};

    /// Returns the number of places.
    pub fn count(self) -> u32
        ensures { result ≡ count self }
    {
        self.end.saturating_sub(self.first)
    }

    /// Returns the place of a number, counted from 0, if there is one.
    fn at(self, i: u64) -> Option<u32>
        ensures place { result ≡ nth self i }
        ensures within { IfSome result (λ place. place < self.end) }
    {
        if i < u64::from(self.count()) {
            Some(self.first + i as u32)
        } else {
            None
        }
    }
}

/// A place.
#[derive(Clone, Copy)]
pub enum SweepPlace {
    /// The byte of the input at an offset.
    Byte(u32),
    /// The word of the program at an address.
    Word(u32),
    /// The instruction of 16 bits at an address.
    Half(u32),
    /// A step of the run.
    Step(u32),
    /// No place.
    Nowhere,
}

/// The values that a byte gets.
#[derive(Drop)]
pub enum ByteValues {
    /// Each other value.
    All,
    /// Each value that differs in one bit.
    Flips,
    /// 0, 1, 127, 128, 255, one above and one below.
    Edges,
    /// These values.
    Listed(Vec<u32>),
}

/// The values that a word or an instruction of 16 bits gets.
#[derive(Drop)]
pub enum WordValues {
    /// Each value that differs in one bit, from bit 0 on.
    Flips,
    /// The instruction of the same length that does nothing.
    Skip,
    /// These values, in their order, for words only.
    Listed(Vec<u32>),
}

/// The fault models of a sweep: which changes it tries at a step.
#[derive(Clone, Copy)]
pub struct FaultModels {
    /// The instruction is left out.
    pub skip: bool,
    /// Each bit of each of x1 to x31 is turned.
    pub registers: bool,
    /// Each bit of pc is turned.
    pub pc: bool,
    /// Each bit of the instruction at pc, of 16 or of 32 bits, is turned, for this step only.
    pub words: bool,
    /// Each bit of each byte that this or a later step reads before one overwrites it is turned.
    pub memory: bool,
    /// Each of x1 to x31 is set to 0.
    pub zero: bool,
    /// Each of x1 to x31 is set to 0xffffffff.
    pub ones: bool,
}

/// The changes that a sweep tries.
#[derive(Drop)]
pub struct Plan {
    /// The bytes of the input, which come first.
    pub bytes: Places,
    /// The values that each byte gets.
    pub byte_values: ByteValues,
    /// The words of a program all of whose instructions are words, by a quarter of their addresses.
    pub words: Places,
    /// The instructions of a program that has some of 16 bits, in ascending order of their addresses.
    pub instructions: Vec<SweepPlace>,
    /// The values that each word and each instruction gets.
    pub word_values: WordValues,
    /// The steps of the run.
    pub steps: Places,
    /// The fault models that are tried at each step.
    pub models: FaultModels,
    /// The addresses to which pc is limited at these steps, both ends included; all if there are none.
    pub code: Option<Range>,
    /// Whether pairs of skips are tried, too.
    pub pairs: bool,
    ghost addresses: { words.end ≤ 2 ^ 30 },
    ghost few: { length instructions.items ≤ 2 ^ 31 },
}

impl Plan {
    ghost use Rattle.std.specs.Prelude.{◌≡◌, ◌<◌, ◌^◌, IfOk};
    ghost use Rattle.sweep_plans.specs.Plans.{HasNext, changes_of, has_only_bytes, place_at, place_behind, place_behind_words, place_count, wanted_halves, wanted_words, word_values};

    /// Returns the number of places.
    pub fn places(&self) -> u64
        ensures number { result ≡ place_count self.now }
        ensures few { result < 2 ^ 34 }
    {
        u64::from(self.bytes.count())
            + u64::from(self.words.count())
            + self.instructions.len() as u64
            + u64::from(self.steps.count())
    }

    /// Returns whether all places are bytes of the input.
    pub fn has_only_bytes(&self) -> bool
        ensures { result ≡ has_only_bytes self.now }
    {
        self.words.count() == 0 && self.instructions.len() == 0 && self.steps.count() == 0
    }

    /// Returns the place of a number: the bytes come first, then the words or the instructions, then the steps.
    pub fn place(&self, i: u64) -> SweepPlace
        ensures { result ≡ place_at self.now i }
    {
        if let Some(offset) = self.bytes.at(i) {
            return SweepPlace::Byte(offset);
        }
        self.place_behind(i.saturating_sub(u64::from(self.bytes.count())))
    }

    /// Returns the place of a number among those after the bytes.
    fn place_behind(&self, i: u64) -> SweepPlace
        ensures { result ≡ place_behind self.now i }
    {
        if let Some(word) = self.words.at(i) {
            return SweepPlace::Word(4 * word);
        }
        self.place_behind_words(i.saturating_sub(u64::from(self.words.count())))
    }

    /// Returns the place of a number among those after the words.
    fn place_behind_words(&self, i: u64) -> SweepPlace
        ensures { result ≡ place_behind_words self.now i }
    {
        if let Some(place) = self.instructions.get(i as usize) {
            return *place;
        }
        match self
            .steps
            .at(i.saturating_sub(self.instructions.len() as u64))
        {
            Some(step) => SweepPlace::Step(step),
            None => SweepPlace::Nowhere,
        }
    }

    /// Returns the values that a word gets instead of its own, in order.
    fn values_for(&self, alloc: Global, word: u32) -> Result<Vec<u32>, AllocError>
        ensures { IfOk result (λ values. values.items ≡ word_values word (wanted_words self.now.word_values word)) }
    {
        match &self.word_values {
            WordValues::Flips => others(alloc, &flips(alloc, word, WORD_BITS)?, word),
            WordValues::Skip => others(alloc, NO_OP, word),
            WordValues::Listed(list) => others(alloc, list, word),
        }
    }

    /// Returns the values that an instruction of 16 bits gets instead of its own, in order.
    #[tactic(auto, unfolding(crate::specs::Plans::word_values))]
    fn values_for_half(&self, alloc: Global, half: u32) -> Result<Vec<u32>, AllocError>
        ensures { IfOk result (λ values. values.items ≡ word_values half (wanted_halves self.now.word_values half)) }
    {
        match &self.word_values {
            WordValues::Flips => others(alloc, &flips(alloc, half, HALF_BITS)?, half),
            WordValues::Skip => others(alloc, HALF_NO_OP, half),
            WordValues::Listed(_) => Ok(Vec::new(alloc)),
        }
    }

    /// Returns the changes at a place, in order.
    #[tactic(auto, unfolding(crate::specs::Plans::changes_of))]
    pub fn changes(&self, alloc: Global, standing: Standing) -> Result<Vec<Change>, AllocError>
        requires { HasNext standing }
        ensures { IfOk result (λ changes. changes.items ≡ changes_of self.now standing) }
    {
        match standing {
            Standing::Byte { offset, byte } => {
                byte_changes(alloc, offset, &byte_values(alloc, &self.byte_values, byte)?)
            }
            Standing::Word { addr, word } => {
                word_changes(alloc, addr, &self.values_for(alloc, word)?)
            }
            Standing::Half { addr, half } => {
                half_changes(alloc, addr, &self.values_for_half(alloc, u32::from(half))?)
            }
            Standing::Step { step, pc, is_half } => {
                glitches(alloc, self.models, step, pc, is_half)
            }
        }
    }
}
