//! Where the heap's region and the stack's lie.
ghost use Rattle.std.specs.Prelude.{◌≡◌, ◌-◌, true, IfOk, IfErr, Some};
ghost use Rattle.memory_map.specs.Regions.{are_regions, first_fault, first_stack_bytes, is_heap_begin, is_stack_region, overlap};

use crate::{FIRST_STACK_BYTES, HEAP_SIZE};

/// The heap's region begins at a multiple of this.
const HEAP_STEP: u32 = 0x1000_0000;
/// The least begin of the heap's region: no block is at address 0.
const LEAST_HEAP_BEGIN: u32 = 0x1000_0000;
/// The greatest begin of the heap's region, whose end is an address too.
const GREATEST_HEAP_BEGIN: u32 = 0xD000_0000;
/// The stack's region begins and ends at multiples of this.
const STACK_STEP: u32 = 4096;
/// The greatest end of the stack's region, which is an address too.
const GREATEST_STACK_END: u32 = 0xFFFF_F000;
/// The least number of bytes of the stack's region.
const LEAST_STACK: u32 = 65_536;

/// The region of the stack.
#[derive(Clone, Copy, PartialEq, Eq)]
pub struct StackRegion {
    /// Its first address.
    pub begin: u32,
    /// The first address after it.
    pub end: u32,
}

/// What is wrong with regions. The first is tested first.
#[derive(Clone, Copy, PartialEq, Eq)]
pub enum RegionsFault {
    /// The heap's region can't begin there.
    Heap,
    /// The stack's region can't reach from there to there.
    Stack,
    /// The two have an address in common.
    Meet,
}

/// Where the heap's region begins, and where the stack's lies. The two have no address in common.
#[derive(Clone, Copy, PartialEq, Eq)]
pub struct Regions {
    pub(crate) heap: u32,
    pub(crate) stack: StackRegion,
    ghost sound: { are_regions heap stack.begin stack.end ≡ true },
}

/// Returns whether the heap's region may begin at an address: at a multiple of 0x10000000, from 0x10000000 to 0xD0000000.
#[tactic(auto, unfolding(crate::specs::Regions::is_heap_begin))]
fn is_heap_begin(begin: u32) -> bool
    ensures { result ≡ is_heap_begin begin }
{
    begin % HEAP_STEP == 0 && LEAST_HEAP_BEGIN <= begin && begin <= GREATEST_HEAP_BEGIN
}

/// Returns whether a region may be the stack's: its ends are addresses and multiples of 4,096, and it has at least 64
/// KiB.
#[tactic(auto, unfolding(crate::specs::Regions::is_stack_region))]
fn is_stack_region(stack: StackRegion) -> bool
    ensures { result ≡ is_stack_region stack.begin stack.end }
{
    stack.begin % STACK_STEP == 0
        && stack.end % STACK_STEP == 0
        && u64::from(stack.begin) + u64::from(LEAST_STACK) <= u64::from(stack.end)
        && stack.end <= GREATEST_STACK_END
}

/// Returns whether the heap's region has an address of the stack's.
#[tactic(auto, unfolding(crate::specs::Regions::overlap))]
fn overlap(heap: u32, stack: StackRegion) -> bool
    ensures { result ≡ overlap heap stack.begin stack.end }
{
    let heap_end = u64::from(heap) + u64::from(HEAP_SIZE);
    u64::from(heap.max(stack.begin)) < heap_end.min(u64::from(stack.end))
}

impl Regions {
    /// The regions where nothing is said of them: the heap's from 0x40000000 to 0x60000000, the stack's from 0x7F000000 to 0x80000000.
    pub const USUAL: Regions = Regions {
        heap: 0x4000_0000,
        stack: StackRegion {
            begin: 0x7F00_0000,
            end: 0x8000_0000,
        },
    };

    /// Returns the regions with these bounds.
    ///
    /// # Errors
    ///
    /// Returns the first [`RegionsFault`] that the bounds have.
    #[tactic(auto, unfolding(crate::specs::Regions::first_fault))]
    pub fn new(heap: u32, stack: StackRegion) -> Result<Regions, RegionsFault>
        ensures heap { IfOk result (λ regions. regions.heap ≡ heap) }
        ensures stack { IfOk result (λ regions. regions.stack ≡ stack) }
        ensures fault { IfErr result (λ fault. first_fault heap stack.begin stack.end ≡ Some fault) }
    {
        if !is_heap_begin(heap) {
            Err(RegionsFault::Heap)
        } else if !is_stack_region(stack) {
            Err(RegionsFault::Stack)
        } else if overlap(heap, stack) {
            Err(RegionsFault::Meet)
        } else {
            Ok(Regions { heap, stack })
        }
    }

    /// Returns the first address of the heap's region.
    #[inline(always)]
    pub fn heap_begin(self) -> u32
        ensures { result ≡ self.heap }
    {
        self.heap
    }

    /// Returns the region of the stack.
    #[inline(always)]
    pub fn stack(self) -> StackRegion
        ensures { result ≡ self.stack }
    {
        self.stack
    }

    /// Returns where the stack pointer points at the start of a program: the last [`FIRST_STACK_BYTES`] bytes of the stack's region.
    #[tactic(auto, unfolding(crate::specs::Regions::is_stack_region))]
    pub fn stack_start(self) -> u32
        ensures { result ≡ self.stack.end - first_stack_bytes }
    {
        self.stack.end - FIRST_STACK_BYTES
    }
}
