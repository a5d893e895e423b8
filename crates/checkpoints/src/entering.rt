//! How first uses are entered, looked up and dropped.
ghost use Rattle.std.specs.Prelude.{◌≡◌, ℕ, ◌+◌, ◌-◌, ◌*◌, ◌/◌, ◌%◌, ◌^◌, ◌<◌, ◌≤◌, slice_index_or, slice_set, if◌then◌else◌, true, map, min, max, length, IfOk, IfSome, IsTrue, Some, is_some};
ghost use Rattle.std.specs.List.{list_any};
ghost use Rattle.std.specs.List.Sorted.{IsNonDecreasingBy};
ghost use Rattle.run_values.specs.declared.span.Span.{Span as SpanOf};
ghost use Rattle.checkpoints.specs.declared.uses.Row.{Row as RowOf};
ghost use Rattle.checkpoints.specs.declared.uses.Lookup.TheVariants.{At};
ghost use Rattle.guest_elf.specs.Segments.{has_address};
ghost use Rattle.guest_machine.specs.Exec.{has_touched};
ghost use Rattle.guest_machine.specs.Spans.{covers, span_at, IsCodeSpan};
ghost use Rattle.guest_elf.specs.declared.segment.Segment.{Segment as SegmentOf};
ghost use Rattle.checkpoints.specs.Words.{meets, is_among, is_from, words_in, word_end, words_of, IsPlaced, IsLookup, never, kept_below, group_size, AreBelowBounds, DropsAt, IsEntered, is_in_group};
ghost use Rattle.checkpoints.specs.Entries.{ranges_of, entry_of, below, EntersAt, IsClean};
ghost use Rattle.checkpoints.specs.FirstUses.{earliest, first_of_code};

use crate::searches::later;
use crate::uses::{FirstUses, GROUP, Lookup, REMEMBERED, Row};
use guest_elf::Segment;
use guest_machine::{Span, Touched};
use std::alloc::{AllocError, Global};

/// The value for no step.
const NEVER: u32 = u32::MAX;
/// The greatest number of rows that are looked at individually.
const FEW: usize = 8;
/// The number of all words.
const ALL_WORDS: u32 = 1 << 30;

/// The number of words that have a byte in a range.
fn words_in(range: Span) -> usize
    ensures value { result ≡ words_in range }
    ensures few { result < 2 ^ 31 }
{
    ((u64::from(range.start % 4) + u64::from(range.len) + 3) / 4) as usize
}

/// Whether a range has a byte, and all of them in one word.
#[inline(always)]
fn is_in_a_word(range: Span) -> bool
    ensures some { IsTrue result → 0 < range.len }
    ensures short { IsTrue result → range.len ≤ 4 - range.start % 4 }
{
    range.len != 0 && range.len <= 4 - range.start % 4
}

/// One past the last word of a range, by a quarter of its address.
fn word_end(range: Span) -> u64
    ensures { result ≡ word_end range }
{
    u64::from(range.start / 4) + words_in(range) as u64
}

/// The greater of two numbers.
fn greater(x: u64, y: u64) -> u64
    ensures { result ≡ max x y }
{
    if x < y { y } else { x }
}

/// The lesser of two steps, if there is one.
fn earliest(one: Option<u32>, other: Option<u32>) -> Option<u32>
    ensures { result ≡ earliest one other }
{
    let Some(x) = one else {
        return other;
    };
    let Some(y) = other else {
        return Some(x);
    };
    if x < y { Some(x) } else { Some(y) }
}

/// The number of rows that end before a word, if there are many: found by halves.
#[inline(never)]
fn many_ended_by(rows: &[Row], word: u32) -> usize
    requires { IsNonDecreasingBy (λ (row : RowOf). row.end) rows.now }
    ensures within { result ≤ length rows.now }
    ensures before { (k : ℕ) (d : RowOf) → k < result → (slice_index_or rows.now k d).end ≤ word }
    ensures next { (d : RowOf) → result < length rows.now → word < (slice_index_or rows.now result d).end }
{
    rows.partition_point(|row| row.end <= u64::from(word))
}

/// The number of rows that end before a word, if there are few: found one after another.
#[inline(always)]
fn few_ended_by(rows: &[Row], word: u32) -> usize
    ensures within { result ≤ length rows.now }
    ensures before { (k : ℕ) (d : RowOf) → k < result → (slice_index_or rows.now k d).end ≤ word }
    ensures next { (d : RowOf) → result < length rows.now → word < (slice_index_or rows.now result d).end }
{
    for index in 0..rows.len() {
        if u64::from(word) < rows[index].end {
            return index;
        }
    }
    rows.len()
}

/// The number of rows that end before a word.
#[inline(always)]
fn ended_by(rows: &[Row], word: u32) -> usize
    requires { IsNonDecreasingBy (λ (row : RowOf). row.end) rows.now }
    ensures within { result ≤ length rows.now }
    ensures before { (k : ℕ) (d : RowOf) → k < result → (slice_index_or rows.now k d).end ≤ word }
    ensures next { (d : RowOf) → result < length rows.now → word < (slice_index_or rows.now result d).end }
{
    if rows.len() <= FEW {
        few_ended_by(rows, word)
    } else {
        many_ended_by(rows, word)
    }
}

/// The ranges of the segments of a program, in their order.
fn spans_of(alloc: Global, segments: &[Segment]) -> Result<Vec<Span>, AllocError>
    ensures { IfOk result (λ ranges. ranges.items ≡ map (λ (s : SegmentOf). span_at s.vaddr s.memsz) segments.now) }
{
    let mut ranges = Vec::new(alloc);
    for segment in segments {
        ranges.push(Span {
            start: segment.vaddr,
            len: segment.memsz,
        })?;
    }
    Ok(ranges)
}

impl FirstUses {
    /// A table over the segments of a program, with no step in it.
    pub(crate) fn new(alloc: Global, segments: &[Segment]) -> Result<FirstUses, AllocError>
        ensures ranges { IfOk result (λ uses. (a : ℕ) → is_among (ranges_of uses) a ≡ list_any (λ segment. has_address segment a) segments.now) }
        ensures none { IfOk result (λ uses. (w : ℕ) → entry_of uses w ≡ never) }
    {
        let mut ranges = spans_of(alloc, segments)?;
        ranges.sort_unstable_by_key(|range| range.start);
        FirstUses::over(alloc, ranges)
    }

    /// A table over ranges in the order of their addresses, with no step in it.
    #[tactic(auto, unfolding(crate::specs::Entries::ranges_of))]
    fn over(alloc: Global, ranges: Vec<Span>) -> Result<FirstUses, AllocError>
        requires { IsNonDecreasingBy (λ (range : SpanOf). range.start) ranges.items }
        ensures ranges { IfOk result (λ uses. ranges_of uses ≡ ranges.items) }
        ensures none { IfOk result (λ uses. (w : ℕ) → entry_of uses w ≡ never) }
    {
        let mut rows = Vec::new(alloc);
        let mut steps = Vec::new(alloc);
        let mut end = 0;
        for range in &ranges {
            end = greater(end, word_end(*range));
            rows.push(Row {
                first: range.start / 4,
                before: steps.len(),
                end,
            })?;
            steps.resize(steps.len() + words_in(*range), NEVER)?;
        }
        let mut bounds = Vec::new(alloc);
        bounds.resize(steps.len() / GROUP + 1, 0)?;
        Ok(FirstUses {
            ranges,
            rows,
            steps,
            bounds,
            entered: 0,
            remembered: [NEVER; REMEMBERED],
        })
    }

    /// The place of a word in the table.
    #[inline(always)]
    #[tactic(auto, unfolding(crate::specs::Entries::ranges_of))]
    fn place_of(&self, word: u32) -> Lookup
        ensures { IsLookup (ranges_of self.now) word result }
    {
        let index = ended_by(&self.rows, word);
        if index == self.rows.len() {
            return Lookup::NoneBelow(ALL_WORDS);
        }
        let row = self.rows[index];
        if word < row.first {
            return Lookup::NoneBelow(row.first.min(ALL_WORDS));
        }
        Lookup::At(row.before + (word - row.first) as usize)
    }

    /// The first step that was entered for a word, if it lies below another.
    #[tactic(auto, unfolding(crate::specs::Entries::ranges_of, crate::specs::Entries::entry_of))]
    pub(crate) fn first_below(&self, word: u32, step: u32) -> Option<u32>
        ensures { result ≡ below step (entry_of self.now word) }
    {
        match self.place_of(word) {
            Lookup::At(place) => {
                let first = self.steps[place];
                if first < step { Some(first) } else { None }
            }
            Lookup::NoneBelow(_) => None,
        }
    }

    /// The first step that was entered for a word with a byte of the code of some bytes at an address, if it lies below another.
    pub(crate) fn first_of_code(&self, addr: u32, len: u32, step: u32) -> Option<u32>
        requires some { 0 < len }
        requires whole { addr + len ≤ 2 ^ 32 }
        ensures { result ≡ first_of_code self.now addr len step }
    {
        let last = addr + (len - 1);
        earliest(
            self.first_below(addr / 4, step),
            self.first_below(last / 4, step),
        )
    }

    /// Enters a step for a word that has a place, or skips a word that has none and those like it above it. Returns the number of words
    /// that are then done.
    #[tactic(auto, unfolding(crate::specs::Entries::ranges_of, crate::specs::Entries::entry_of))]
    fn enter(&mut self, word: u32, most: u32, step: u32) -> u32
        requires { word < 2 ^ 30 }
        ensures ranges { ranges_of self.new ≡ ranges_of self.old }
        ensures clean { IsClean self.old (step + 1) → IsClean self.new (step + 1) }
        ensures some { 0 < most → word < 2 ^ 30 → 0 < result }
        ensures within { 0 < most → result ≤ most }
        ensures inside { word < 2 ^ 30 → word + result ≤ 2 ^ 30 }
        ensures entries { (w : ℕ) → w < 2 ^ 30 → IsPlaced (ranges_of self.old) w
            → entry_of self.new w ≡ (if is_from word result w then min (entry_of self.old w) step else entry_of self.old w) }
    {
        match self.place_of(word) {
            Lookup::At(place) => {
                self.enter_at(word, place, step);
                1
            }
            Lookup::NoneBelow(end) => {
                self.remember(word);
                end.saturating_sub(word).min(most)
            }
        }
    }

    /// Enters a step for a word.
    #[inline(always)]
    #[tactic(auto, unfolding(crate::specs::Entries::ranges_of, crate::specs::Entries::entry_of))]
    fn enter_word(&mut self, word: u32, step: u32)
        requires { word < 2 ^ 30 }
        ensures ranges { ranges_of self.new ≡ ranges_of self.old }
        ensures clean { IsClean self.old (step + 1) → IsClean self.new (step + 1) }
        ensures entries { (w : ℕ) → w < 2 ^ 30 → IsPlaced (ranges_of self.old) w
            → entry_of self.new w ≡ (if is_from word 1 w then min (entry_of self.old w) step else entry_of self.old w) }
    {
        match self.place_of(word) {
            Lookup::At(place) => self.enter_at(word, place, step),
            Lookup::NoneBelow(_) => self.remember(word),
        }
    }

    /// Enters a step at the place of a word.
    #[inline(always)]
    #[tactic(auto, unfolding(crate::specs::Entries::ranges_of, crate::specs::Entries::entry_of))]
    fn enter_at(&mut self, word: u32, place: usize, step: u32)
        requires small { word < 2 ^ 30 }
        requires place { IsLookup (ranges_of self.old) word (At place) }
        ensures ranges { ranges_of self.new ≡ ranges_of self.old }
        ensures clean { IsClean self.old (step + 1) → IsClean self.new (step + 1) }
        ensures entries { (w : ℕ) → w < 2 ^ 30 → IsPlaced (ranges_of self.old) w
            → entry_of self.new w ≡ (if is_from word 1 w then min (entry_of self.old w) step else entry_of self.old w) }
    {
        let first = self.steps[place];
        if step < first {
            self.put(place, step);
            self.remember(word);
        } else if first < NEVER {
            self.remember(word);
        }
    }

    /// Remembers a word for which a step was entered, or which has no place.
    #[inline(always)]
    #[tactic(auto, unfolding(crate::specs::Entries::ranges_of, crate::specs::Entries::entry_of))]
    fn remember(&mut self, word: u32)
        requires small { word < 2 ^ 30 }
        requires entered { IsEntered (ranges_of self.old) self.old.steps.items word }
        ensures ranges { ranges_of self.new ≡ ranges_of self.old }
        ensures clean { (n : ℕ) → IsClean self.old n → IsClean self.new n }
        ensures steps { self.new.steps.items ≡ self.old.steps.items }
    {
        self.remembered[word as usize % REMEMBERED] = word;
    }

    /// Stores a step at a place.
    #[inline(always)]
    #[tactic(auto, unfolding(crate::specs::Entries::ranges_of))]
    fn put(&mut self, place: usize, step: u32)
        requires within { place < words_of (ranges_of self.old) }
        requires step { step < never }
        ensures ranges { ranges_of self.new ≡ ranges_of self.old }
        ensures clean { IsClean self.old (step + 1) → IsClean self.new (step + 1) }
        ensures steps { self.new.steps.items ≡ slice_set self.old.steps.items place step }
    {
        let group = place / GROUP;
        self.entered = later(self.entered, step + 1);
        self.bounds[group] = later(self.bounds[group], step + 1);
        self.steps[place] = step;
    }

    /// Whether the word of a range that lies in one word is remembered. Then it changes nothing to enter a step for it that isn't below the
    /// others.
    #[inline(always)]
    #[tactic(auto, unfolding(crate::specs::Entries::ranges_of, crate::specs::Entries::entry_of))]
    fn remembers(&self, span: Span) -> bool
        requires { span.len ≤ 4 - span.start % 4 }
        ensures { IsTrue result → (step : ℕ) → IsClean self.now (step + 1) → EntersAt step (covers (Some span)) self.now self.now }
    {
        let word = span.start / 4;
        self.remembered[word as usize % REMEMBERED] == word
    }

    /// Whether a range lies in a word that is remembered.
    #[inline(always)]
    fn is_known(&self, span: Span) -> bool
        ensures { IsTrue result → (step : ℕ) → IsClean self.now (step + 1) → EntersAt step (covers (Some span)) self.now self.now }
    {
        span.len <= 4 - span.start % 4 && self.remembers(span)
    }

    /// Whether a code begins at a multiple of 4, and its word is remembered. It costs no more than for a word: a remembered word is a
    /// quarter of an address, and what is compared is none where the code begins at another multiple of 2.
    #[inline(always)]
    #[tactic(auto, unfolding(crate::specs::Entries::ranges_of, crate::specs::Entries::entry_of))]
    fn remembers_code(&self, code: Span) -> bool
        requires { IsCodeSpan code }
        ensures { IsTrue result → (step : ℕ) → IsClean self.now (step + 1) → EntersAt step (covers (Some code)) self.now self.now }
    {
        let turned = code.start / 4 + code.start % 4 * ALL_WORDS;
        self.remembered[turned as usize % REMEMBERED] == turned
    }

    /// Enters a step for each word that the code meets which was fetched, if one was.
    #[inline(always)]
    fn enter_fetch(&mut self, fetch: Option<Span>, step: u32)
        requires clean { IsClean self.old (step + 1) }
        requires code { IfSome fetch IsCodeSpan }
        ensures ranges { ranges_of self.new ≡ ranges_of self.old }
        ensures clean { IsClean self.new (step + 1) }
        ensures entries { EntersAt step (covers fetch) self.old self.new }
    {
        if let Some(code) = fetch {
            if !self.remembers_code(code) {
                self.enter_code(code, step);
            }
        }
    }

    /// Enters a step for each word that a code meets which wasn't found at once. Out of line, since that is rare where all codes are words.
    #[inline(never)]
    fn enter_code(&mut self, code: Span, step: u32)
        requires { IsClean self.old (step + 1) }
        ensures ranges { ranges_of self.new ≡ ranges_of self.old }
        ensures clean { IsClean self.new (step + 1) }
        ensures entries { EntersAt step (covers (Some code)) self.old self.new }
    {
        self.enter_span(Some(code), step);
    }

    /// Enters a step for each word that a range meets.
    #[inline(always)]
    fn enter_span(&mut self, span: Option<Span>, step: u32)
        requires { IsClean self.old (step + 1) }
        ensures ranges { ranges_of self.new ≡ ranges_of self.old }
        ensures clean { IsClean self.new (step + 1) }
        ensures entries { EntersAt step (covers span) self.old self.new }
    {
        if let Some(span) = span {
            if !self.is_known(span) {
                self.enter_unknown(span, step);
            }
        }
    }

    /// The same. Out of line, since most steps touch words that were touched before. For a range in one word it calls nothing if there are
    /// few rows, so that no register is saved.
    #[inline(never)]
    fn enter_unknown(&mut self, span: Span, step: u32)
        ensures ranges { ranges_of self.new ≡ ranges_of self.old }
        ensures clean { IsClean self.old (step + 1) → IsClean self.new (step + 1) }
        ensures entries { EntersAt step (covers (Some span)) self.old self.new }
    {
        if self.rows.len() <= FEW && is_in_a_word(span) {
            self.enter_word(span.start / 4, step);
        } else {
            self.enter_words(span, step);
        }
    }

    /// The same, word by word.
    #[inline(never)]
    fn enter_words(&mut self, span: Span, step: u32)
        ensures ranges { ranges_of self.new ≡ ranges_of self.old }
        ensures clean { IsClean self.old (step + 1) → IsClean self.new (step + 1) }
        ensures entries { EntersAt step (covers (Some span)) self.old self.new }
    {
        if span.len == 0 {
            return;
        }
        let first = span.start / 4;
        let words = words_in(span) as u32;
        let mut done = 0;
        while done < words {
            done += self.enter((first + done) % ALL_WORDS, words - done, step);
        }
    }

    /// Enters a step for each word that it touched.
    #[inline(always)]
    fn enter_each(&mut self, touched: &Touched, step: u32)
        requires clean { IsClean self.old (step + 1) }
        requires code { IfSome touched.now.fetch IsCodeSpan }
        ensures ranges { ranges_of self.new ≡ ranges_of self.old }
        ensures clean { IsClean self.new (step + 1) }
        ensures entries { EntersAt step (has_touched touched.now) self.old self.new }
    {
        self.enter_fetch(touched.fetch, step);
        self.enter_span(touched.reads, step);
        self.enter_span(touched.writes, step);
    }

    /// The same. Out of line, for a step that fetched nothing, which is rare.
    #[cold]
    #[inline(never)]
    fn enter_apart(&mut self, touched: Touched, step: u32)
        requires clean { IsClean self.old (step + 1) }
        requires code { IfSome touched.fetch IsCodeSpan }
        ensures ranges { ranges_of self.new ≡ ranges_of self.old }
        ensures clean { IsClean self.new (step + 1) }
        ensures entries { EntersAt step (has_touched touched) self.old self.new }
    {
        self.enter_each(&touched, step);
    }

    /// Enters a step for each word that it touched. No later step was entered before. Returns whether the step fetched a code, or the
    /// first half of one, which no step of a halted machine does.
    #[inline(always)]
    pub(crate) fn enter_touched(&mut self, touched: &Touched, step: u32) -> bool
        requires clean { IsClean self.old (step + 1) }
        requires code { IfSome touched.now.fetch IsCodeSpan }
        ensures ranges { ranges_of self.new ≡ ranges_of self.old }
        ensures clean { IsClean self.new (step + 1) }
        ensures entries { EntersAt step (has_touched touched.now) self.old self.new }
        ensures took { result ≡ is_some touched.now.fetch }
    {
        if touched.fetch.is_none() {
            self.enter_apart(*touched, step);
            return false;
        }
        self.enter_each(touched, step);
        true
    }

    /// Drops the entries of steps from one on.
    #[tactic(auto, unfolding(crate::specs::Entries::ranges_of, crate::specs::Entries::entry_of))]
    pub(crate) fn forget_from(&mut self, step: u32)
        ensures ranges { ranges_of self.new ≡ ranges_of self.old }
        ensures clean { IsClean self.new step }
        ensures entries { (w : ℕ) → entry_of self.new w ≡ kept_below step (entry_of self.old w) }
    {
        if self.entered > step {
            forget_groups(&mut self.steps, &mut self.bounds, step);
            self.entered = step;
            self.remembered = [NEVER; REMEMBERED];
        }
    }
}

/// Drops the steps from one on. Groups whose bound isn't above that step have none of them, and are skipped.
fn forget_groups(steps: &mut [u32], bounds: &mut [u32], from: u32)
    requires grouped { length bounds.old ≡ length steps.old / group_size + 1 }
    requires bounded { AreBelowBounds steps.old bounds.old }
    ensures steps { DropsAt (λ place. true) from steps.old steps.new }
    ensures bounded { AreBelowBounds steps.new bounds.new }
{
    for group in 0..bounds.len() {
        if bounds[group] > from {
            forget_group(steps, group, from);
            bounds[group] = from;
        }
    }
}

/// Drops the steps from one on in a group. Out of line, so that a skipped group costs one comparison.
#[inline(never)]
fn forget_group(steps: &mut [u32], group: usize, from: u32)
    requires { group_size * group ≤ length steps.old }
    ensures { DropsAt (is_in_group group) from steps.old steps.new }
{
    for place in GROUP * group..group_end(group, steps.len()) {
        steps[place] = kept_below(from, steps[place]);
    }
}

/// A step, or none if it isn't below another.
fn kept_below(from: u32, step: u32) -> u32
    ensures { result ≡ kept_below from step }
{
    if step < from { step } else { NEVER }
}

/// One past the last place of a group, in a table of some places.
fn group_end(group: usize, places: usize) -> usize
    requires { group_size * group ≤ places }
    ensures { result ≡ min places (group_size * group + group_size) }
{
    let first = GROUP * group;
    if places - first < GROUP {
        places
    } else {
        first + GROUP
    }
}
