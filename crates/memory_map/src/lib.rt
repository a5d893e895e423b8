//! The map of a guest's memory: the regions that aren't a program's own. Each reaches from its begin up to, but not including, its end.
//!
//! A program's segments lie beside them: a file that loads into one of them is rejected by `guest_elf`. [`Regions::USUAL`] are the regions
//! where nothing is said of them; [`Regions::new`] returns others. Definitions cite the bounds by name from `specs/Regions.antt`.
#![tactic(auto)]

mod regions;

pub use regions::{Regions, RegionsFault, StackRegion};

/// The number of bytes of the heap's region, wherever it begins.
pub const HEAP_SIZE: u32 = 0x2000_0000;
/// The number of bytes that a program's start finds at its stack pointer, at the end of the stack's region.
pub const FIRST_STACK_BYTES: u32 = 16;
