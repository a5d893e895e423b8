//! What a file is read for.
ghost use Rattle.std.specs.Prelude.{◌≡◌};
ghost use Rattle.guest_elf.specs.Profiles.{has_atomics, has_controls, has_halves, is_aligned, is_half, is_short, unit};

use memory_map::Regions;

/// An instruction set: RV32I, the base, with M, products and quotients, and what it has besides
/// (RISC-V Unprivileged ISA 20191213, chapter 27).
#[derive(Clone, Copy, PartialEq, Eq)]
pub struct Isa {
    /// Has it C, instructions of 16 bits too, at each multiple of 2?
    pub compressed: bool,
    /// Has it A, atomic instructions?
    pub atomics: bool,
    /// Has it control registers, FENCE.I and WFI, which start files have?
    pub controls: bool,
}

impl Isa {
    /// RV32IM.
    pub const RV32IM: Isa = Isa {
        compressed: false,
        atomics: false,
        controls: false,
    };

    /// RV32IMC with Zicsr, Zifencei and WFI.
    pub const RV32IMC: Isa = Isa {
        compressed: true,
        atomics: false,
        controls: true,
    };

    /// RV32IMAC with the same.
    pub const RV32IMAC: Isa = Isa {
        compressed: true,
        atomics: true,
        controls: true,
    };

    /// Returns the number of bytes of its shortest instructions, each of which begins at a multiple of that.
    #[inline(always)]
    #[tactic(auto, unfolding(crate::specs::Profiles::unit))]
    pub fn unit(self) -> u32
        ensures { result ≡ unit self }
    {
        if self.compressed { 2 } else { 4 }
    }

    /// Returns whether there are instructions of 16 bits.
    #[inline(always)]
    #[tactic(auto, unfolding(crate::specs::Profiles::has_halves))]
    pub fn has_halves(self) -> bool
        ensures { result ≡ has_halves self }
    {
        self.compressed
    }

    /// Returns whether there are atomic instructions.
    #[tactic(auto, unfolding(crate::specs::Profiles::has_atomics))]
    pub fn has_atomics(self) -> bool
        ensures { result ≡ has_atomics self }
    {
        self.atomics
    }

    /// Returns whether there are control registers, and FENCE.I and WFI.
    #[inline(always)]
    #[tactic(auto, unfolding(crate::specs::Profiles::has_controls))]
    pub fn has_controls(self) -> bool
        ensures { result ≡ has_controls self }
    {
        self.controls
    }

    /// Returns whether an instruction whose first two bytes are this number has no further ones. Only the two lowest bits count.
    #[inline(always)]
    #[tactic(auto, unfolding(crate::specs::Profiles::is_half))]
    pub fn is_half(self, first: u32) -> bool
        ensures { result ≡ is_half self first }
    {
        self.compressed && is_short(first)
    }

    /// Returns whether an instruction may begin at an address. Each may at a multiple of 4, which is looked at first.
    #[inline(always)]
    #[tactic(auto, unfolding(crate::specs::Profiles::unit), using(crate::proofs::Aligning::word_aligned))]
    pub fn aligns(self, addr: u32) -> bool
        ensures { result ≡ is_aligned self addr }
    {
        if addr % 4 == 0 {
            return true;
        }
        self.compressed && addr % 2 == 0
    }
}

/// Returns whether an instruction that begins with these bits has 16 of them, wherever there are such. Only the two lowest bits count.
#[inline(always)]
pub fn is_short(first: u32) -> bool
    ensures { result ≡ is_short first }
{
    first % 4 != 3
}

/// How many bytes the calls `read` and `write` of a program move.
#[derive(Clone, Copy, PartialEq, Eq)]
pub struct StreamLimits {
    /// The greatest number of bytes that one call moves.
    pub most_moved: u32,
    /// The greatest number of bytes of output in all; with the greatest `u64`, which no run comes to, there is no limit.
    pub most_output: u64,
}

impl StreamLimits {
    /// The numbers where nothing is said of them.
    pub const USUAL: StreamLimits = StreamLimits {
        most_moved: 4096,
        most_output: 65_536,
    };
}

/// What a file is read for, besides the file's own bytes.
#[derive(Clone, Copy, PartialEq, Eq)]
pub struct Profile {
    /// The instruction set.
    pub isa: Isa,
    /// Where the heap's region and the stack's lie.
    pub regions: Regions,
    /// How many bytes its calls move.
    pub limits: StreamLimits,
}

impl Profile {
    /// The profile of [`read`](crate::read).
    pub const USUAL: Profile = Profile {
        isa: Isa::RV32IM,
        regions: Regions::USUAL,
        limits: StreamLimits::USUAL,
    };
}
