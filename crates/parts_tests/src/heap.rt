//! Blocks that are allocated, released and found.
use crate::comes;
use call_stacks::Trace;
use guest_heap::{Block, Heap, Place, Released};
use std::alloc::{AllocError, Global};
use std::process::Abort;

/// The address from which all calls come.
const SITE: u32 = 0x10008;

/// A change or a look-up of a heap, and its result.
enum Act {
    /// Bytes with a redzone are allocated: the place of the block.
    Allocate(u32, u32, Option<u32>),
    /// An address is released, with a volume of the queue of freed blocks: the start of the freed block, and whether it is an error.
    Release(u32, u32, Option<u32>, bool),
    /// What is near an address.
    Near(u32, Option<(Place, u32)>),
    /// The start of the first live block from an address on.
    Live(u32, Option<u32>),
    /// The start of the first kept block from an address on.
    Kept(u32, Option<u32>),
}

/// A block of 8 bytes at 0x40000010 with a redzone of 16.
const ONE: Act = Act::Allocate(8, 16, Some(0x4000_0010));

/// A label; the acts on a new heap, and then those on a copy of it.
type Case = (&'static str, &'static [Act], &'static [Act]);

/// Releases an address. Returns the start of the freed block, and whether the release is an error.
pub(crate) fn release(
    alloc: Global,
    heap: &mut Heap,
    address: u32,
    volume: u32,
) -> Result<(Option<u32>, bool), AllocError> {
    match heap.release(alloc, address, Trace::of(SITE), volume)? {
        Released::Done(block) => Ok((Some(block.start), false)),
        Released::Nothing => Ok((None, false)),
        Released::Invalid => Ok((None, true)),
    }
}

/// Returns whether a block is near an address in this way.
fn is_near(heap: &Heap, address: u32, want: Option<(Place, u32)>) -> bool {
    match (heap.block_near(address), want) {
        (Some(near), Some((place, distance))) => near.place == place && near.distance == distance,
        (None, None) => true,
        _ => false,
    }
}

fn start_of(block: Option<Block>) -> Option<u32> {
    match block {
        Some(block) => Some(block.start),
        None => None,
    }
}

/// Returns whether an act has its result.
fn is_answered(alloc: Global, heap: &mut Heap, act: &Act) -> Result<bool, AllocError> {
    match act {
        Act::Allocate(size, redzone, place) => {
            let found = heap.allocate(alloc, *size, Trace::of(SITE), *redzone)?;
            Ok(found == *place)
        }
        Act::Release(address, volume, start, is_error) => {
            let (freed, is_invalid) = release(alloc, heap, *address, *volume)?;
            Ok(freed == *start && is_invalid == *is_error)
        }
        Act::Near(address, near) => Ok(is_near(heap, *address, *near)),
        Act::Live(address, start) => Ok(start_of(heap.live(*address)) == *start),
        Act::Kept(address, start) => Ok(start_of(heap.kept(*address)) == *start),
    }
}

/// Returns whether each act has its result, one after another.
fn are_answered(alloc: Global, heap: &mut Heap, acts: &[Act]) -> Result<bool, AllocError> {
    for act in acts {
        if !is_answered(alloc, heap, act)? {
            return Ok(false);
        }
    }
    Ok(true)
}

/// Returns whether each act has its result on a copy.
fn are_answered_by_copy(alloc: Global, heap: &Heap, acts: &[Act]) -> Result<bool, AllocError> {
    let mut copy = heap.share()?;
    are_answered(alloc, &mut copy, acts)
}

/// Returns whether the acts of a case have their results, on a borrowed heap.
fn are_answered_by_both(alloc: Global, heap: &mut Heap, case: &Case) -> Result<bool, AllocError> {
    if !are_answered(alloc, heap, case.1)? {
        return Ok(false);
    }
    are_answered_by_copy(alloc, heap, case.2)
}

/// Returns whether they do on a new heap.
fn is_so(alloc: Global, case: &Case) -> Result<bool, AllocError> {
    let mut heap = Heap::new(alloc);
    are_answered_by_both(alloc, &mut heap, case)
}

/// Asserts that cases hold.
fn assert_so(rt: &impl Abort, alloc: Global, cases: &[Case]) {
    for case in cases {
        comes(rt, case.0, is_so(alloc, case));
    }
}

const PLACES: [Case; 1] = [(
    "a place is a multiple of 16, and a redzone's length away from the interval before it",
    &[
        Act::Allocate(8, 0, Some(0x4000_0000)),
        Act::Allocate(8, 0, Some(0x4000_0010)),
        Act::Allocate(8, 16, Some(0x4000_0030)),
        Act::Allocate(9, 16, Some(0x4000_0060)),
        Act::Allocate(0, 1, Some(0x4000_0080)),
        Act::Allocate(16_777_217, 16, None),
        Act::Allocate(16_777_216, 16, Some(0x4000_00a0)),
        Act::Allocate(1, 0x2000_0000, None),
    ],
    &[],
)];

#[test]
fn places_one_after_another(rt: HostRuntime) {
    assert_so(&rt, rt.alloc(), &PLACES);
}

const FREED: [Case; 1] = [(
    "frees what is live",
    &[
        ONE,
        Act::Live(0, Some(0x4000_0010)),
        Act::Release(0, 8, None, false),
        Act::Release(0x4000_0011, 8, None, true),
        Act::Release(0x4000_0010, 8, Some(0x4000_0010), false),
        Act::Release(0x4000_0010, 8, None, true),
        Act::Live(0, None),
        Act::Kept(0x4000_0010, Some(0x4000_0010)),
        Act::Kept(0x4000_0011, None),
        Act::Near(0x4000_0010, Some((Place::Inside, 0))),
    ],
    &[],
)];

#[test]
fn frees_what_is_live(rt: HostRuntime) {
    assert_so(&rt, rt.alloc(), &FREED);
}

const NEAR: [Case; 1] = [(
    "a copy tells what is near",
    &[ONE],
    &[
        Act::Near(0x3fff_ffff, None),
        Act::Near(0x4000_0000, Some((Place::Before, 16))),
        Act::Near(0x4000_000f, Some((Place::Before, 1))),
        Act::Near(0x4000_0013, Some((Place::Inside, 3))),
        Act::Near(0x4000_0018, Some((Place::After, 0))),
        Act::Near(0x4000_0027, Some((Place::After, 15))),
        Act::Near(0x4000_0028, None),
        Act::Live(0x4000_0010, Some(0x4000_0010)),
        Act::Live(0x4000_0011, None),
    ],
)];

#[test]
fn tells_what_is_near(rt: HostRuntime) {
    assert_so(&rt, rt.alloc(), &NEAR);
}

const VOLUMES: [Case; 3] = [
    (
        "remembers up to the volume",
        &[
            ONE,
            Act::Release(0x4000_0010, 8, Some(0x4000_0010), false),
            Act::Allocate(8, 16, Some(0x4000_0040)),
        ],
        &[],
    ),
    (
        "forgets beyond the volume",
        &[
            ONE,
            Act::Release(0x4000_0010, 7, Some(0x4000_0010), false),
            ONE,
        ],
        &[],
    ),
    (
        "forgets at a volume of 0",
        &[
            ONE,
            Act::Release(0x4000_0010, 0, Some(0x4000_0010), false),
            ONE,
        ],
        &[],
    ),
];

#[test]
fn forgets_beyond_the_volume(rt: HostRuntime) {
    assert_so(&rt, rt.alloc(), &VOLUMES);
}

/// The number of blocks among which there are gaps: every second is freed.
const BLOCKS: u32 = 300;

/// Returns the size of a block, from 1 to 65,536 bytes.
fn varied(number: u32) -> u32 {
    number.wrapping_mul(7919) % 65536 + 1
}

/// Allocates blocks of varying sizes.
fn fill(alloc: Global, heap: &mut Heap) -> Result<(), AllocError> {
    for number in 0..BLOCKS {
        heap.allocate(alloc, varied(number), Trace::of(SITE), 16)?;
    }
    Ok(())
}

/// Frees every second live block, so that its place is free at once.
fn free_every_second(alloc: Global, heap: &mut Heap) -> Result<(), AllocError> {
    let mut from = 0;
    let mut is_second = false;
    for _ in 0..BLOCKS {
        if let Some(block) = heap.live(from) {
            from = block.start.wrapping_add(1);
            if is_second {
                release(alloc, heap, block.start, 0)?;
            }
            is_second = !is_second;
        }
    }
    Ok(())
}

/// Requests among the gaps, of which some have to look at more than 64 of them. Then three neighbours are freed, and the range that
/// becomes free spans parts that were full for the sizes of later requests.
const AMONG_GAPS: [Act; 24] = [
    Act::Allocate(65_535, 16, Some(0x4094_79d0)),
    Act::Allocate(65_000, 16, Some(0x402c_df70)),
    Act::Allocate(64_000, 16, Some(0x400f_d240)),
    Act::Allocate(20_000, 16, Some(0x4000_5d50)),
    Act::Allocate(65_000, 16, Some(0x4095_79f0)),
    Act::Allocate(17, 16, Some(0x4000_0040)),
    Act::Allocate(40_000, 16, Some(0x4002_8ab0)),
    Act::Allocate(33_000, 16, Some(0x4001_3620)),
    Act::Allocate(64_000, 16, Some(0x406a_ed50)),
    Act::Allocate(3, 16, Some(0x4000_0080)),
    Act::Allocate(50_000, 16, Some(0x4006_b270)),
    Act::Allocate(16_000, 16, Some(0x4004_a710)),
    Act::Allocate(62_000, 16, Some(0x4014_1c00)),
    Act::Allocate(1, 16, Some(0x4000_00b0)),
    Act::Allocate(9_000, 16, Some(0x4003_2710)),
    Act::Allocate(100_000, 16, Some(0x4096_7800)),
    Act::Release(0x406a_ed50, 0, Some(0x406a_ed50), false),
    Act::Release(0x406b_e830, 0, Some(0x406b_e830), false),
    Act::Release(0x406c_3ac0, 0, Some(0x406c_3ac0), false),
    Act::Allocate(100_000, 16, Some(0x406a_ed50)),
    Act::Allocate(100_000, 16, Some(0x4097_fec0)),
    Act::Allocate(30_000, 16, Some(0x4005_6ee0)),
    Act::Allocate(5_000, 16, Some(0x4000_00e0)),
    Act::Allocate(90_000, 16, Some(0x4099_8580)),
];

fn are_answered_among_gaps(alloc: Global, heap: &mut Heap) -> Result<bool, AllocError> {
    fill(alloc, heap)?;
    free_every_second(alloc, heap)?;
    are_answered(alloc, heap, &AMONG_GAPS)
}

/// Returns whether requests among many gaps have their least places.
fn is_so_among_gaps(alloc: Global) -> Result<bool, AllocError> {
    let mut heap = Heap::new(alloc);
    are_answered_among_gaps(alloc, &mut heap)
}

#[test]
fn finds_least_places_among_gaps(rt: HostRuntime) {
    comes(
        &rt,
        "the least places among many gaps, before and after neighbours are freed",
        is_so_among_gaps(rt.alloc()),
    );
}
