//! Copies of bytes with their undefined bits, each compared with a plain copy byte by byte.
use crate::comes;
use definedness::Bits;
use shadow_memory::{Cell, Memory, RangeKind};
use std::alloc::{AllocError, Global};

/// Writes a held page, with some bytes inaccessible, undefined and partly defined; two blank pages of undefined bytes; one page of zeros;
/// and inaccessible ones after them. The same is at each base.
fn lay_out(memory: &mut Memory, base: u32) -> Result<(), AllocError> {
    memory.fill(base, 0x1000, b"abcdefghijklmnopqrstuvw")?;
    memory.set_range(base.wrapping_add(0x1000), 0x2000, RangeKind::Undefined)?;
    memory.fill(base.wrapping_add(0x3000), 0x1000, b"")?;
    for group in 0..12u32 {
        let at = base
            .wrapping_add(0xF00)
            .wrapping_add(group.wrapping_mul(20));
        lay_out_group(memory, at, group)?;
    }
    Ok(())
}

/// Writes a partly defined word, with undefined and inaccessible bytes after it.
fn lay_out_group(memory: &mut Memory, at: u32, group: u32) -> Result<(), AllocError> {
    let bits = Bits {
        value: group | 0x4433_2200,
        undef: 0x00F0_0000,
    };
    let _bad = memory.store(at, 4, bits)?;
    memory.set_range(at.wrapping_add(5), 9, RangeKind::Undefined)?;
    memory.set_range(at.wrapping_add(16), group & 3, RangeKind::NoAccess)
}

/// Copies, if the ranges don't overlap.
pub(crate) fn copy_apart(
    memory: &mut Memory,
    from: u32,
    to: u32,
    len: u32,
) -> Result<bool, AllocError> {
    if from.wrapping_sub(to) < len || to.wrapping_sub(from) < len {
        return Ok(false);
    }
    memory.copy_with_shadow(from, to, len)?;
    Ok(true)
}

/// Returns a target's byte after a source's was copied to it.
fn copied(source: Cell, target: Cell) -> Cell {
    Cell {
        byte: source.byte,
        accessible: target.accessible,
        undef: if target.accessible { source.undef } else { 0 },
    }
}

/// Returns the first offset at which a byte isn't as it should be, of the bytes copied and 16 more.
fn first_wrong(old: &Memory, new: &Memory, from: u32, to: u32, len: u32) -> Option<u32> {
    for i in 0..len.wrapping_add(16) {
        let at = to.wrapping_add(i);
        let was = old.byte(at);
        let want = if i < len {
            copied(old.byte(from.wrapping_add(i)), was)
        } else {
            was
        };
        if new.byte(at) != want {
            return Some(i);
        }
    }
    None
}

/// Returns where a copy leaves a memory that is laid out at both bases as it shouldn't; `None` if all is well.
fn wrong_in(memory: &mut Memory, from: u32, to: u32, len: u32) -> Result<Option<u32>, AllocError> {
    lay_out(memory, 0x1_0000)?;
    lay_out(memory, 0x3_0000)?;
    let old = memory.share()?;
    if !copy_apart(memory, from, to, len)? {
        return Ok(Some(len));
    }
    Ok(first_wrong(&old, memory, from, to, len))
}

/// Returns the same for a new memory.
fn wrong_copy(alloc: Global, from: u32, to: u32, len: u32) -> Result<Option<u32>, AllocError> {
    let mut memory = Memory::new(alloc);
    wrong_in(&mut memory, from, to, len)
}

/// A label; from where, to where and how many bytes are copied; and the number of pairs of offsets in 16 bytes, of a source and of a
/// target.
type Copy = (&'static str, u32, u32, u32, u32);

/// Returns whether a copy is right for each pair.
fn is_copied(alloc: Global, copy: &Copy) -> Result<bool, AllocError> {
    let (_, from, to, len, pairs) = copy;
    for pair in 0..*pairs {
        let from = from.wrapping_add(pair & 15);
        let to = to.wrapping_add(pair / 16);
        if wrong_copy(alloc, from, to, *len)? != None {
            return Ok(false);
        }
    }
    Ok(true)
}

/// Mixed bytes, and whole pages.
const COPIES: [Copy; 12] = [
    ("mixed bytes to mixed ones", 0x1_0F00, 0x3_0F08, 0x90, 256),
    ("mixed to undefined ones", 0x1_0F80, 0x3_1FC0, 0x90, 256),
    (
        "undefined bytes to mixed ones",
        0x1_1F80,
        0x3_0F80,
        0x90,
        256,
    ),
    ("undefined bytes to zeros", 0x1_1F80, 0x3_2FC0, 0x90, 256),
    ("zeros to undefined bytes", 0x1_2FC0, 0x3_1F80, 0x90, 256),
    ("past accessible bytes", 0x1_0F80, 0x3_3FC0, 0x90, 256),
    ("from inaccessible bytes", 0x1_3FC0, 0x3_0F80, 0x90, 256),
    ("round the end", 0x1_0F80, 0xFFFF_FFC0, 0x90, 256),
    ("to the same place in pages", 0x1_0E80, 0x3_0E80, 0x3400, 1),
    ("to another place in pages", 0x1_0E80, 0x3_0EC0, 0x3400, 1),
    ("from whole pages", 0x1_1000, 0x3_0000, 0x3000, 1),
    ("within blank pages", 0x1_1008, 0x1_2010, 0xF80, 1),
];

#[test]
fn copies(rt: HostRuntime) {
    for copy in &COPIES {
        comes(&rt, copy.0, is_copied(rt.alloc(), copy));
    }
}
