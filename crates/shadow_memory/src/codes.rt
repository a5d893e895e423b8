//! Two bits for each byte of a page.
ghost use Rattle.std.specs.Prelude.{◌≡◌, ◌⊎◌, ℕ, ◌+◌, ◌-◌, ◌%◌, ◌<◌, ◌≤◌, ◌==◌, if◌then◌else◌, vec_len, IfOk, IfSome, IsTrue, IsFalse};
ghost use Rattle.shadow_memory.specs.Places.{changed_from, is_between, page_len};
ghost use Rattle.shadow_memory.specs.Loads.{four};
ghost use Rattle.shadow_memory.specs.Parts.{code_of, loaded_code, part_of, taken_code};

use crate::cells::RangeKind;
use crate::laws::{all_are, are_same, first_not};
use crate::slices::set_all;
use crate::word_scans::are_zero;
use std::alloc::{AllocError, Global};

/// The number of an inaccessible byte.
pub(crate) const NO_ACCESS: u8 = 0;

/// The number of an accessible byte with all bits undefined.
pub(crate) const UNDEFINED: u8 = 1;

/// The number of an accessible byte with all bits defined.
pub(crate) const DEFINED: u8 = 2;

/// The number of any other byte, whose undefined bits are in the side map.
pub(crate) const PARTLY: u8 = 3;

/// Returns the number of a kind.
pub(crate) fn code_of_kind(kind: RangeKind) -> u8
    ensures small { result < 4 }
    ensures value { result ≡ code_of kind }
{
    match kind {
        RangeKind::NoAccess => NO_ACCESS,
        RangeKind::Undefined => UNDEFINED,
        RangeKind::Defined => DEFINED,
    }
}

/// Returns the kind of a number, if it has one.
pub(crate) fn kind_of_code(code: u8) -> Option<RangeKind>
    ensures { IfSome result (λ kind. code ≡ code_of kind) }
{
    match code {
        NO_ACCESS => Some(RangeKind::NoAccess),
        UNDEFINED => Some(RangeKind::Undefined),
        DEFINED => Some(RangeKind::Defined),
        _ => None,
    }
}

/// Returns the number of a byte as it is loaded, if it isn't partly defined.
pub(crate) fn loaded_code(code: u8) -> u8
    ensures small { result < 4 }
    ensures value { result ≡ loaded_code code }
{
    if code == UNDEFINED {
        UNDEFINED
    } else {
        DEFINED
    }
}

// Returns the number of a byte that takes over another's.
fn taken_code(made: u8, old: u8) -> u8
    requires { made < 4 }
    ensures small { result < 4 }
    ensures value { result ≡ taken_code made old }
{
    if old == NO_ACCESS { NO_ACCESS } else { made }
}

// The number of bytes that hold the numbers of a page, four in each byte.
const PACKED: usize = 1024;

// At the multiples of this number of places, a long run of one number is looked for.
const STRETCH: usize = 512;

// The byte whose four numbers are each 1.
const FOUR_ONES: u8 = 85;

/// 4,096 numbers below four.
#[derive(Drop)]
pub(crate) struct Codes {
    packed: Vec<u8>,
    ghost long: { vec_len packed ≡ 1024 },
}

// Returns one of the four numbers in a byte.
fn part(byte: u8, place: usize) -> u8
    requires { place < 4 }
    ensures value { result ≡ part_of byte place }
    ensures small { result < 4 }
{
    match place {
        0 => byte % 4,
        1 => byte / 4 % 4,
        2 => byte / 16 % 4,
        _ => byte / 64,
    }
}

// Returns the byte with one of its four numbers changed.
fn with_part(byte: u8, place: usize, code: u8) -> u8
    requires place { place < 4 }
    requires small { code < 4 }
    ensures { (k : ℕ) → k < 4 → part_of result k ≡ (if k == place then code else part_of byte k) }
{
    match place {
        0 => byte / 4 * 4 + code,
        1 => byte / 16 * 16 + code * 4 + byte % 4,
        2 => byte / 64 * 64 + code * 16 + byte % 16,
        _ => code * 64 + byte % 64,
    }
}

// Returns the byte of four numbers.
fn packed_four(first: u8, second: u8, third: u8, fourth: u8) -> u8
    requires first { first < 4 }
    requires second { second < 4 }
    requires third { third < 4 }
    requires fourth { fourth < 4 }
    ensures { (k : ℕ) → k < 4 → part_of result k ≡ four first second third fourth k }
{
    first + 4 * second + 16 * third + 64 * fourth
}

// Returns the number of a byte, in one place of four, that takes over another's as it is loaded.
fn copied_part(source: u8, target: u8, place: usize) -> u8
    requires { place < 4 }
    ensures small { result < 4 }
    ensures value { result ≡ taken_code (loaded_code (part_of source place)) (part_of target place) }
{
    taken_code(loaded_code(part(source, place)), part(target, place))
}

// Returns whether the four numbers in a byte are all those of undefined bytes, or all those of defined ones.
fn are_alike(byte: u8) -> bool
    ensures { IsTrue result → (k : ℕ) → k < 4 → (part_of byte k ≡ 1) ⊎ (part_of byte k ≡ 2) }
{
    byte == UNDEFINED * FOUR_ONES || byte == DEFINED * FOUR_ONES
}

// Returns the four numbers of a byte that take over those of another as they are loaded.
fn copied_four(source: u8, target: u8) -> u8
    ensures { (k : ℕ) → k < 4 → part_of result k ≡ taken_code (loaded_code (part_of source k)) (part_of target k) }
{
    if are_alike(source) && are_alike(target) {
        return source;
    }
    packed_four(
        copied_part(source, target, 0),
        copied_part(source, target, 1),
        copied_part(source, target, 2),
        copied_part(source, target, 3),
    )
}

// Returns whether none of the four numbers in a byte is that of a partly defined byte. May also return `false` for such numbers.
fn are_whole(byte: u8) -> bool
    ensures { IsTrue result → (k : ℕ) → k < 4 → part_of byte k < 3 }
{
    are_alike(byte)
        || part(byte, 0) != PARTLY
            && part(byte, 1) != PARTLY
            && part(byte, 2) != PARTLY
            && part(byte, 3) != PARTLY
}

#[tactic(auto, unfolding(crate::specs::Codes::code_at))]
impl Codes {
    ghost use Rattle.shadow_memory.specs.Codes.{code_at};

    pub(crate) fn filled(alloc: Global, code: u8) -> Result<Codes, AllocError>
        requires { code < 4 }
        ensures { IfOk result (λ codes. (at : ℕ) → at < page_len → code_at codes at ≡ code) }
    {
        let packed = vec![in alloc; code * FOUR_ONES; PACKED]?;
        Ok(Codes { packed })
    }

    pub(crate) fn code(&self, at: usize) -> u8
        requires { at < page_len }
        ensures value { result ≡ code_at self.now at }
        ensures small { result < 4 }
    {
        part(self.packed[at / 4], at % 4)
    }

    /// Returns whether the numbers are those of others.
    pub(crate) fn are_same(&self, others: &Codes) -> bool
        ensures { IsTrue result → (at : ℕ) → code_at self.now at ≡ code_at others.now at }
    {
        are_same(&self.packed, &others.packed)
    }

    /// Returns whether each of the numbers is this one.
    pub(crate) fn are_all(&self, code: u8) -> bool
        requires { code < 4 }
        ensures { IsTrue result → (at : ℕ) → at < page_len → code_at self.now at ≡ code }
    {
        // The last four are compared before the scan: if a stack's end lies in a page, they differ from its first.
        self.packed[PACKED - 1] == code * FOUR_ONES && all_are(&self.packed, code * FOUR_ONES)
    }

    /// Returns whether each number, from one place up to, but not including, another, is this one.
    #[inline(always)]
    pub(crate) fn are_all_between(&self, from: usize, to: usize, code: u8) -> bool
        requires order { from ≤ to }
        requires within { to ≤ page_len }
        requires small { code < 4 }
        ensures { IsTrue result → (at : ℕ) → from ≤ at → at < to → code_at self.now at ≡ code }
    {
        if from % 4 == 0 && to - from == 4 {
            return self.packed[from / 4] == code * FOUR_ONES;
        }
        for at in from..to {
            if self.code(at) != code {
                return false;
            }
        }
        true
    }

    /// Returns whether each number of 256 places, from a multiple of 4 on, is that of an inaccessible byte.
    #[inline(always)]
    pub(crate) fn are_inaccessible(&self, at: usize) -> bool
        requires aligned { at % 4 ≡ 0 }
        requires within { at + 256 ≤ page_len }
        ensures { IsTrue result → (k : ℕ) → at ≤ k → k < at + 256 → code_at self.now k ≡ 0 }
    {
        are_zero(&self.packed, at / 4)
    }

    /// Returns whether no number, from one place up to, but not including, another, is that of an inaccessible byte.
    #[inline(always)]
    pub(crate) fn are_accessible(&self, from: usize, to: usize) -> bool
        requires order { from ≤ to }
        requires within { to ≤ page_len }
        ensures { IsTrue result → (at : ℕ) → from ≤ at → at < to → 0 < code_at self.now at }
    {
        for at in from..to {
            if self.code(at) == NO_ACCESS {
                return false;
            }
        }
        true
    }

    /// Gives four places, from a multiple of 4 on, a number at once, if their bytes are all undefined or all defined. Returns whether it
    /// did.
    #[inline(always)]
    pub(crate) fn take_word(&mut self, from: usize, to: usize, made: u8) -> bool
        requires order { from ≤ to }
        requires within { to ≤ page_len }
        requires small { made < 4 }
        ensures done { IsTrue result → (k : ℕ) → code_at self.new k ≡ (if is_between from to k then made else code_at self.old k) }
        ensures accessible { IsTrue result → (k : ℕ) → from ≤ k → k < to → 0 < code_at self.old k }
        ensures kept { IsFalse result → self.new ≡ self.old }
    {
        if from % 4 != 0 || to - from != 4 || !are_alike(self.packed[from / 4]) {
            return false;
        }
        self.packed[from / 4] = made * FOUR_ONES;
        true
    }

    /// Returns a place before which each number, from `from` on, is this one. `from` is a multiple of 4.
    pub(crate) fn skip(&self, from: usize, code: u8) -> usize
        requires within { from ≤ page_len }
        requires aligned { from % 4 ≡ 0 }
        requires small { code < 4 }
        ensures start { from ≤ result }
        ensures same { (at : ℕ) → from ≤ at → at < result → code_at self.now at ≡ code }
    {
        match first_not(&self.packed[from / 4..], code * FOUR_ONES) {
            Some(i) => from + 4 * i,
            None => 4 * PACKED,
        }
    }

    // Returns a place before which each number, from `at` on, is this one; `at` itself if its number isn't.
    fn run_some(&self, at: usize, to: usize, code: u8) -> usize
        requires order { at < to }
        requires within { to ≤ page_len }
        requires small { code < 4 }
        ensures on { at ≤ result }
        ensures more { code_at self.now at ≡ code → at < result }
        ensures within { result ≤ to }
        ensures same { (k : ℕ) → at ≤ k → k < result → code_at self.now k ≡ code }
    {
        if self.code(at) != code {
            return at;
        }
        if at % 4 == 0 {
            let next = self.skip(at, code).min(to);
            if next > at {
                return next;
            }
        }
        at + 1
    }

    /// Returns the place after `from` where the run of its number ends, or `to` if that comes first.
    pub(crate) fn run(&self, from: usize, to: usize) -> usize
        requires order { from < to }
        requires within { to ≤ page_len }
        ensures on { from < result }
        ensures within { result ≤ to }
        ensures same { (k : ℕ) → from ≤ k → k < result → code_at self.now k ≡ code_at self.now from }
    {
        let code = self.code(from);
        let mut at = from;
        while at < to {
            let next = self.run_some(at, to, code);
            if next == at {
                return at;
            }
            at = next;
        }
        at
    }

    // Returns a place before which no byte, from `at` on, is partly defined; `at` itself if its byte is.
    fn whole_some(&self, at: usize, to: usize) -> usize
        requires order { at < to }
        requires within { to ≤ page_len }
        ensures on { at ≤ result }
        ensures within { result ≤ to }
        ensures whole { (k : ℕ) → at ≤ k → k < result → code_at self.now k < 3 }
    {
        if at % 4 == 0 && to - at >= 4 && at % STRETCH != 0 && are_whole(self.packed[at / 4]) {
            return at + 4;
        }
        if self.code(at) == PARTLY {
            return at;
        }
        self.run(at, to)
    }

    /// Returns the first place, from `from` up to `to`, whose byte is partly defined, or `to` if there is none.
    pub(crate) fn whole_end(&self, from: usize, to: usize) -> usize
        requires order { from ≤ to }
        requires within { to ≤ page_len }
        ensures start { from ≤ result }
        ensures within { result ≤ to }
        ensures whole { (k : ℕ) → from ≤ k → k < result → code_at self.now k < 3 }
    {
        let mut at = from;
        while at < to {
            let next = self.whole_some(at, to);
            if next == at {
                return at;
            }
            at = next;
        }
        at
    }

    // Sets the numbers of whole bytes.
    fn set_fours(&mut self, from: usize, to: usize, code: u8)
        requires order { from ≤ to }
        requires within { to ≤ page_len }
        requires aligned { from % 4 ≡ 0 }
        requires aligned_end { to % 4 ≡ 0 }
        requires small { code < 4 }
        ensures { (k : ℕ) → code_at self.new k ≡ (if is_between from to k then code else code_at self.old k) }
    {
        set_all(&mut self.packed, from / 4, to / 4, code * FOUR_ONES);
    }

    // Sets the number of a place, or those of all whole bytes that end before another place. Returns the place after them.
    fn set_some(&mut self, at: usize, to: usize, code: u8) -> usize
        requires order { at < to }
        requires within { to ≤ page_len }
        requires small { code < 4 }
        ensures on { at < result }
        ensures within { result ≤ to }
        ensures set { (k : ℕ) → code_at self.new k ≡ (if is_between at result k then code else code_at self.old k) }
    {
        if at % 4 == 0 && to - at >= 4 {
            let end = to - to % 4;
            self.set_fours(at, end, code);
            end
        } else {
            self.set(at, code);
            at + 1
        }
    }

    /// Sets the numbers from one place up to, but not including, another.
    pub(crate) fn make(&mut self, from: usize, to: usize, code: u8)
        requires order { from ≤ to }
        requires within { to ≤ page_len }
        requires small { code < 4 }
        ensures { (k : ℕ) → code_at self.new k ≡ (if is_between from to k then code else code_at self.old k) }
    {
        let mut at = from;
        while at < to {
            at = self.set_some(at, to, code);
        }
    }

    // Gives the places of a run a number. Returns the place after them.
    fn take_some(&mut self, at: usize, to: usize, made: u8) -> usize
        requires order { at < to }
        requires within { to ≤ page_len }
        requires small { made < 4 }
        ensures on { at < result }
        ensures within { result ≤ to }
        ensures set { (k : ℕ) → code_at self.new k ≡ (if is_between at result k then taken_code made (code_at self.old k) else code_at self.old k) }
    {
        let code = taken_code(made, self.code(at));
        let end = self.run(at, to);
        self.make(at, end, code);
        end
    }

    /// Gives the places from one up to, but not including, another a number. Inaccessible bytes keep theirs.
    pub(crate) fn take(&mut self, from: usize, to: usize, made: u8)
        requires order { from ≤ to }
        requires within { to ≤ page_len }
        requires small { made < 4 }
        ensures { (k : ℕ) → code_at self.new k ≡ (if is_between from to k then taken_code made (code_at self.old k) else code_at self.old k) }
    {
        if self.take_word(from, to, made) {
            return;
        }
        if to - from <= 4 {
            self.take_each(from, to, made);
        } else {
            self.take_runs(from, to, made);
        }
    }

    // The same, place by place.
    fn take_each(&mut self, from: usize, to: usize, made: u8)
        requires order { from ≤ to }
        requires within { to ≤ page_len }
        requires small { made < 4 }
        ensures { (k : ℕ) → code_at self.new k ≡ (if is_between from to k then taken_code made (code_at self.old k) else code_at self.old k) }
    {
        for at in from..to {
            let code = taken_code(made, self.code(at));
            self.set(at, code);
        }
    }

    // The same, run by run.
    fn take_runs(&mut self, from: usize, to: usize, made: u8)
        requires order { from ≤ to }
        requires within { to ≤ page_len }
        requires small { made < 4 }
        ensures { (k : ℕ) → code_at self.new k ≡ (if is_between from to k then taken_code made (code_at self.old k) else code_at self.old k) }
    {
        let mut at = from;
        while at < to {
            at = self.take_some(at, to, made);
        }
    }

    // Gives the four places of a byte the numbers of another byte as they are loaded.
    fn copy_four(&mut self, at: usize, source: &Codes, from: usize)
        requires aligned { at % 4 ≡ 0 }
        requires room { at + 4 ≤ page_len }
        requires from_aligned { from % 4 ≡ 0 }
        requires within { from + 4 ≤ page_len }
        ensures { (k : ℕ) → code_at self.new k ≡ changed_from (code_at self.old) at 4
            (λ i old. taken_code (loaded_code (code_at source.now (from + i))) old) k }
    {
        self.packed[at / 4] = copied_four(source.packed[from / 4], self.packed[at / 4]);
    }

    // Gives places the numbers of others as they are loaded: the four of a byte, or a run of one number. Returns the place after the
    // others.
    fn copy_some(&mut self, at: usize, source: &Codes, from: usize, to: usize) -> usize
        requires order { from < to }
        requires within { to ≤ page_len }
        requires room { at + (to - from) ≤ page_len }
        ensures on { from < result }
        ensures within { result ≤ to }
        ensures set { (k : ℕ) → code_at self.new k ≡ changed_from (code_at self.old) at (result - from)
            (λ i old. taken_code (loaded_code (code_at source.now (from + i))) old) k }
    {
        if at % 4 == 0 && from % 4 == 0 && to - from >= 4 && from % STRETCH != 0 {
            self.copy_four(at, source, from);
            return from + 4;
        }
        self.copy_run(at, source, from, to)
    }

    // Gives places the numbers of a run of others as they are loaded. Returns the place after the run.
    fn copy_run(&mut self, at: usize, source: &Codes, from: usize, to: usize) -> usize
        requires order { from < to }
        requires within { to ≤ page_len }
        requires room { at + (to - from) ≤ page_len }
        ensures on { from < result }
        ensures within { result ≤ to }
        ensures set { (k : ℕ) → code_at self.new k ≡ changed_from (code_at self.old) at (result - from)
            (λ i old. taken_code (loaded_code (code_at source.now (from + i))) old) k }
    {
        let made = loaded_code(source.code(from));
        let end = source.run(from, to);
        self.take(at, at + (end - from), made);
        end
    }

    /// Gives `count` places the numbers of others as they are loaded. None of the others is that of a partly defined byte. Inaccessible
    /// bytes keep theirs.
    pub(crate) fn copy(&mut self, at: usize, source: &Codes, from: usize, count: usize)
        requires room { at + count ≤ page_len }
        requires within { from + count ≤ page_len }
        ensures { (k : ℕ) → code_at self.new k ≡ changed_from (code_at self.old) at count
            (λ i old. taken_code (loaded_code (code_at source.now (from + i))) old) k }
    {
        let end = from + count;
        let mut place = from;
        while place < end {
            place = self.copy_some(at + (place - from), source, place, end);
        }
    }

    pub(crate) fn set(&mut self, at: usize, code: u8)
        requires within { at < page_len }
        requires small { code < 4 }
        ensures { (k : ℕ) → code_at self.new k ≡ (if k == at then code else code_at self.old k) }
    {
        self.packed[at / 4] = with_part(self.packed[at / 4], at % 4, code);
    }
}

#[tactic(auto, unfolding(crate::specs::Codes::code_at))]
impl Clone for Codes {
    ghost use Rattle.std.specs.Prelude.{◌≡◌, ℕ};
    ghost use Rattle.shadow_memory.specs.Codes.{code_at};

    ghost is_clone = { λ codes copy. (at : ℕ) → code_at copy at ≡ code_at codes at };

    fn clone(&self) -> Result<Codes, AllocError> {
        let packed = self.packed.clone()?;
        Ok(Codes { packed })
    }
}
