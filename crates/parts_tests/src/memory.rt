//! Each call on its happy path, and ranges across the end of a page and of the address space. Expected values are worked out by
//! hand from the definitions.
use crate::copies::copy_apart;
use crate::{comes, holds};
use definedness::Bits;
use shadow_memory::laws::{all_are, first_not};
use shadow_memory::{Bad, Memory, RangeKind, WordApart};
use std::alloc::{AllocError, Global};

/// Returns whether an address holds this byte, with this accessibility and these undefined bits.
fn is_cell(memory: &Memory, addr: u32, byte: u8, accessible: bool, undef: u8) -> bool {
    let cell = memory.byte(addr);
    cell.byte == byte && cell.accessible == accessible && cell.undef == undef
}

/// Returns whether the word at an address has this value.
fn has_word(memory: &Memory, addr: u32, value: u32) -> bool {
    memory.load(addr, 4).value == value
}

/// Returns `count` copies of a memory, which share its pages.
fn copies_of(alloc: Global, memory: &Memory, count: u32) -> Result<Vec<Memory>, AllocError> {
    let mut copies = Vec::new(alloc);
    for _copy in 0..count {
        copies.push(memory.share()?)?;
    }
    Ok(copies)
}

/// Returns whether the first `written` copies have their byte, and the others don't.
fn are_written(copies: &[Memory], written: usize) -> bool {
    for (i, copy) in copies.iter().enumerate() {
        let want = if i < written { (i & 0x7f) as u8 } else { b'b' };
        if copy.byte(0x1000_0001).byte != want {
            return false;
        }
    }
    true
}

/// Writes a byte into each copy in turn. Returns whether it is only in that copy.
fn are_apart(copies: &mut [Memory]) -> Result<bool, AllocError> {
    for i in 0..copies.len() {
        if let Some(copy) = copies.get_mut(i) {
            copy.poke(0x1000_0001, (i & 0x7f) as u8)?;
        }
        if !are_written(copies, i.saturating_add(1)) {
            return Ok(false);
        }
    }
    Ok(true)
}

/// Writes a byte into each of 1,025 memories that share their pages. After each write, the memories before it have their byte and those
/// after it don't.
fn shares_are_apart(alloc: Global, first: &mut Memory) -> Result<bool, AllocError> {
    first.fill(0x1000_0000, 8192, b"abcd")?;
    let mut copies = copies_of(alloc, first, 1025)?;
    Ok(are_apart(&mut copies)? && has_word(first, 0x1000_0000, 0x6463_6261))
}

/// Stores a word at an address, all but its last byte, which isn't accessible; `next` is two bytes further. Returns whether it is there.
fn is_stored(memory: &mut Memory, addr: u32, next: u32) -> Result<bool, AllocError> {
    memory.set_range(addr, 3, RangeKind::Defined)?;
    let bits = Bits {
        value: 0x4433_2211,
        undef: 0x0000_F000,
    };
    let bad = memory.store(addr, 4, bits)?;
    Ok(
        bad == Some(addr.wrapping_add(3))
            && is_cell(memory, addr.wrapping_add(1), 0x22, true, 0xF0)
            && is_cell(memory, next, 0x33, true, 0)
            && is_cell(memory, next.wrapping_add(1), 0x44, false, 0),
    )
}

/// Returns whether that word is loaded.
fn is_loaded(memory: &Memory, addr: u32, next: u32) -> bool {
    let loaded = memory.load(addr, 4);
    loaded.value == 0x4433_2211
        && loaded.undef == 0xF000
        && loaded.bad == Some(addr.wrapping_add(3))
        && memory.load(next, 2).value == 0x4433
}

/// Returns whether it is copied to inaccessible bytes, and then to accessible ones.
fn is_copied(memory: &mut Memory, addr: u32) -> Result<bool, AllocError> {
    let first = copy_apart(memory, addr, 0x5FFF, 4)? && is_cell(memory, 0x6000, 0x22, false, 0);
    memory.set_range(0x5FFF, 4, RangeKind::Undefined)?;
    Ok(
        first
            && copy_apart(memory, addr, 0x5FFF, 4)?
            && is_cell(memory, 0x6000, 0x22, true, 0xF0)
            && is_cell(memory, 0x6002, 0x44, true, 0),
    )
}

/// Returns whether loads, stores and copies from an address on are right; `next` is two bytes further.
fn accesses(memory: &mut Memory, addr: u32, next: u32) -> Result<bool, AllocError> {
    if !is_stored(memory, addr, next)? || !is_loaded(memory, addr, next) {
        return Ok(false);
    }
    is_copied(memory, addr)
}

/// Splits two pages of one kind by a range and by a partly defined byte. Returns whether the bytes there are as they should be.
fn split(memory: &mut Memory) -> Result<bool, AllocError> {
    memory.fill(0x4000, 0x2000, b"xyz")?;
    memory.set_range(0x4010, 16, RangeKind::NoAccess)?;
    let partly = Bits {
        value: 7,
        undef: 0x81,
    };
    let bad = memory.store(0x4030, 1, partly)?;
    Ok(
        bad == None
            && is_cell(memory, 0x400F, 0, true, 0)
            && is_cell(memory, 0x4010, 0, false, 0)
            && is_cell(memory, 0x4030, 7, true, 0x81),
    )
}

/// Returns whether the bad bytes of split pages are found.
fn are_split(memory: &Memory) -> bool {
    let inaccessible = Bad {
        addr: 0x4010,
        accessible: false,
    };
    let undefined = Bad {
        addr: 0x4030,
        accessible: true,
    };
    memory.first_bad(0x4000, 0x2000, true) == Some(inaccessible)
        && memory.first_bad(0x4020, 0x1000, true) == Some(undefined)
        && memory.first_bad(0x4020, 0x1000, false) == None
}

/// Returns whether the words between those bytes are found.
fn are_passed_over(memory: &Memory) -> bool {
    memory.next_word(0x400D) == Some(0x4020)
        && memory.next_word(0x402D) == Some(0x4034)
        && memory.next_word(0x6000) == None
}

/// Returns whether pages that were split are defined again, with their bytes.
fn fold(memory: &mut Memory) -> Result<bool, AllocError> {
    memory.set_range(0x4000, 0x1000, RangeKind::Defined)?;
    Ok(
        memory.first_bad(0x4000, 0x2000, true) == None
            && has_word(memory, 0x4000, 0x007A_7978)
            && is_cell(memory, 0x4030, 7, true, 0),
    )
}

/// Returns whether pages are split, and then of one kind again.
fn split_and_fold(memory: &mut Memory) -> Result<bool, AllocError> {
    if !split(memory)? || !are_split(memory) || !are_passed_over(memory) {
        return Ok(false);
    }
    fold(memory)
}

/// Returns whether the bytes of two pages are found to be those of a copy, also from and up to one that differs, and not if one differs
/// or is undefined.
fn are_told(memory: &Memory, copy: &mut Memory) -> Result<bool, AllocError> {
    copy.poke_word(0x6FFC, 1)?;
    copy.set_range(0x5005, 1, RangeKind::Undefined)?;
    Ok(
        memory.has_bytes_of(copy, 0x5003, 0x1FF9)
            && !memory.has_bytes_of(copy, 0x5003, 0x1FFA)
            && !copy.has_bytes_of(memory, 0x5003, 0x1FF9)
            && copy.has_bytes_of(memory, 0x5006, 0x1FF6),
    )
}

/// Returns the same for a new copy.
fn tells_bytes(memory: &mut Memory) -> Result<bool, AllocError> {
    memory.fill(0x5000, 0x2000, b"words of code")?;
    memory.poke_word(0x6004, 7)?;
    let mut copy = memory.share()?;
    are_told(memory, &mut copy)
}

/// Returns whether a word was found to differ, with its values in a memory and in another.
fn is_apart(found: Option<&WordApart>, addr: u32, here: u32, there: u32) -> bool {
    match found {
        Some(word) => word.addr == addr && word.here == here && word.there == there,
        None => false,
    }
}

/// Returns whether two words are found to differ in a copy.
fn are_both_apart(memory: &Memory, copy: &Memory) -> Result<bool, AllocError> {
    let Some(words) = memory.words_apart(copy)? else {
        return Ok(false);
    };
    Ok(
        words.len() == 2
            && is_apart(words.first(), 0x5004, 0x666F_2073, 7)
            && is_apart(words.last(), 0x6FFC, 0, 0x0900_0000),
    )
}

/// Changes words of two pages in a copy, one of them of zeros. Returns whether they are found, and none once a bit is undefined.
fn change_two(memory: &Memory, copy: &mut Memory) -> Result<bool, AllocError> {
    copy.poke_word(0x5004, 7)?;
    copy.poke(0x6FFF, 9)?;
    let are_found = are_both_apart(memory, copy)?;
    copy.set_range(0x5000, 1, RangeKind::Undefined)?;
    Ok(are_found && memory.words_apart(copy)?.is_none())
}

/// Returns the same for a new copy.
fn tells_words(memory: &mut Memory) -> Result<bool, AllocError> {
    memory.fill(0x5000, 0x2000, b"words of code")?;
    let mut copy = memory.share()?;
    change_two(memory, &mut copy)
}

/// Returns whether bytes from outside are stored, the last of them to an inaccessible place.
fn are_stored(memory: &mut Memory) -> Result<bool, AllocError> {
    memory.set_range(0x8FFE, 3, RangeKind::Undefined)?;
    memory.store_bytes(0x8FFE, b"pqrs")?;
    Ok(is_cell(memory, 0x9000, b'r', true, 0) && is_cell(memory, 0x9001, b's', false, 0))
}

/// Returns whether a word is written over them.
fn are_poked(memory: &mut Memory) -> Result<bool, AllocError> {
    memory.poke_word(0x8FFF, 0x0403_0201)?;
    Ok(
        memory.byte(0x8FFE).byte == b'p'
            && has_word(memory, 0x8FFF, 0x0403_0201)
            && is_cell(memory, 0x9001, 3, false, 0),
    )
}

/// Returns whether a half is written into that word.
fn is_half_poked(memory: &mut Memory) -> Result<bool, AllocError> {
    memory.poke_half(0x9000, 0x0605)?;
    Ok(has_word(memory, 0x8FFF, 0x0406_0501))
}

/// Returns whether bytes from outside are stored and overwritten.
fn are_stored_and_poked(memory: &mut Memory) -> Result<bool, AllocError> {
    if !are_stored(memory)? {
        return Ok(false);
    }
    Ok(are_poked(memory)? && is_half_poked(memory)?)
}

/// Returns whether scans of bytes find one that differs.
fn are_scanned() -> bool {
    let bytes = *b"aaaaaaaaaaaaaaaaaaaaab";
    first_not(&bytes, b'a') == Some(21)
        && first_not(&bytes[..21], b'a') == None
        && first_not(&bytes, b'b') == Some(0)
        && all_are(&bytes[..17], b'a')
        && !all_are(&bytes, b'a')
}

// A label; the first address; the range of values; the word that is found.
type Search = (&'static str, u32, u32, u64, Option<u32>);

const SEARCHES: [Search; 12] = [
    ("the first word of a page", 0, 0x40, 0x50, Some(0x4000)),
    ("the last word of a page", 0x4001, 0x40, 0x50, Some(0x4FFC)),
    (
        "from within sixteen words",
        0x4FE4,
        0x40,
        0x50,
        Some(0x4FFC),
    ),
    ("the low end of the range", 0, 0x4F, 0x50, Some(0x4FFC)),
    ("not with its high end", 0x4004, 0x40, 0x4F, None),
    (
        "past zeros, blank pages and directories",
        0x5038,
        1,
        0x1_0000_0000,
        Some(0xFFFF_FFFC),
    ),
    (
        "the greatest value",
        0,
        0xFFFF_FFFF,
        0x1_0000_0000,
        Some(0xFFFF_FFFC),
    ),
    (
        "not with the greatest value",
        0,
        0xFFFF_FFFF,
        0xFFFF_FFFF,
        None,
    ),
    ("no value at all", 0, 0x50, 0x50, None),
    ("not a word with an inaccessible byte", 0, 0x60, 0x61, None),
    ("not a word with an undefined bit", 0, 0x70, 0x71, None),
    ("not across two words", 0, 0x9090_9090, 0x9090_9091, None),
];

/// Stores words that no search finds: one with an inaccessible byte, one with an undefined bit, and bytes across two.
fn hide(memory: &mut Memory) -> Result<bool, AllocError> {
    memory.poke(0x5010, 0x60)?;
    memory.set_range(0x5011, 1, RangeKind::NoAccess)?;
    let partly = Bits {
        value: 0x70,
        undef: 0x100,
    };
    let bad = memory.store(0x5020, 4, partly)?;
    memory.store_bytes(0x5032, b"\x90\x90\x90\x90")?;
    Ok(bad == None)
}

/// Fills a memory with pages of one kind, and one byte that differs from the others.
fn fill_for_searches(memory: &mut Memory) -> Result<(), AllocError> {
    memory.fill(0x4000, 0x3000, b"\x40")?;
    memory.fill(0x0080_0000, 0x0100_0000, b"")?;
    memory.fill(0xFFFF_FFFC, 4, b"\xFF\xFF\xFF\xFF")?;
    memory.poke(0x4FFC, 0x4F)
}

/// Returns whether words are found by their values.
fn are_found(memory: &Memory) -> bool {
    for (_, from, low, high, found) in &SEARCHES {
        if memory.next_in_range(*from, *low, *high) != *found {
            return false;
        }
    }
    true
}

/// Returns whether they are found in a memory that is filled first.
fn searches(memory: &mut Memory) -> Result<bool, AllocError> {
    fill_for_searches(memory)?;
    Ok(hide(memory)? && are_found(memory))
}

/// A trial with a new memory.
enum Trial {
    SharesApart,
    /// Accesses from an address on; the second is two bytes after it.
    Accesses(u32, u32),
    SplitAndFold,
    Words,
    WordsApart,
    FromOutside,
    Searches,
}

/// Returns whether a trial passes in a memory.
fn goes_well(alloc: Global, memory: &mut Memory, trial: &Trial) -> Result<bool, AllocError> {
    match trial {
        Trial::SharesApart => shares_are_apart(alloc, memory),
        Trial::Accesses(addr, next) => accesses(memory, *addr, *next),
        Trial::SplitAndFold => split_and_fold(memory),
        Trial::Words => tells_bytes(memory),
        Trial::WordsApart => tells_words(memory),
        Trial::FromOutside => are_stored_and_poked(memory),
        Trial::Searches => searches(memory),
    }
}

/// Returns whether it passes in a new memory.
fn goes_well_in_new(alloc: Global, trial: &Trial) -> Result<bool, AllocError> {
    let mut memory = Memory::new(alloc);
    goes_well(alloc, &mut memory, trial)
}

const TRIALS: [(&str, Trial); 8] = [
    ("memories that share pages", Trial::SharesApart),
    ("across pages", Trial::Accesses(0x1FFE, 0x2000)),
    ("round the end", Trial::Accesses(0xFFFF_FFFE, 0)),
    ("pages split and fold", Trial::SplitAndFold),
    ("words are compared", Trial::Words),
    ("words differ", Trial::WordsApart),
    ("bytes come and go", Trial::FromOutside),
    ("values are found", Trial::Searches),
];

#[test]
fn memories(rt: HostRuntime) {
    holds(&rt, "scans", are_scanned());
    for (label, trial) in &TRIALS {
        comes(&rt, label, goes_well_in_new(rt.alloc(), trial));
    }
}
