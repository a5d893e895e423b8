//! A loaded segment.
ghost use Rattle.std.specs.Prelude.{◌≡◌, ◌+◌, ◌^◌, ◌≤◌, length};

/// A range of addresses that a file loads: `bytes` from `vaddr` on, and zeros after them, `memsz` bytes
/// in all (System V ABI, edition 4.1, chapter 5, "Program Header").
#[derive(Clone, Copy)]
pub struct Segment<'a> {
    /// The address of the first byte.
    pub vaddr: u32,
    /// The number of bytes in memory.
    pub memsz: u32,
    /// The bytes that come from the file.
    pub bytes: &'a [u8],
    ghost in_space: { vaddr + memsz ≤ 2 ^ 32 },
    ghost within: { length bytes.now ≤ memsz },
}

impl Segment<'_> {
    ghost use Rattle.guest_elf.specs.Segments.{has_address};

    /// Returns whether an address is among the segment's.
    pub fn has(&self, addr: u32) -> bool
        ensures { result ≡ has_address self.now addr }
    {
        addr >= self.vaddr && addr - self.vaddr < self.memsz
    }
}
