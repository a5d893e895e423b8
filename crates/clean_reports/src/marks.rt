//! The marks that are in the way of a clean run.
ghost use Rattle.std.specs.Prelude.{◌≡◌, IfNone, IfSome};
ghost use Rattle.shadow_memory.specs.Ranges.{is_in};
ghost use Rattle.clean_reports.specs.Marks.{hinders, is_word, meets_heap};
ghost use Rattle.clean_reports.specs.Verdicts.{IsFirstInTheWay, NoneInTheWay};

use guest_elf::Isa;
use guest_machine::{Act, Alteration};
use memory_map::HEAP_SIZE;
use shadow_memory::RangeKind;

/// The undefined bits of a register that has no defined one.
const ALL_BITS: u32 = u32::MAX;

/// Returns whether an address is one of the `len` addresses from `start` on.
fn is_in(start: u32, len: u32, address: u32) -> bool
    ensures { result ≡ is_in start len address }
{
    address.wrapping_sub(start) < len
}

/// Returns whether a range has a byte of the heap region that begins at `heap`.
fn meets_heap(heap: u32, addr: u32, len: u32) -> bool
    ensures { result ≡ meets_heap heap addr len }
{
    is_in(addr, len, heap) || (len > 0 && is_in(heap, HEAP_SIZE, addr))
}

/// Returns whether a number fits a word, as each does.
fn is_word(n: u32) -> bool
    ensures { result ≡ is_word n }
{
    u64::from(n) < 1 << 32
}

/// Returns whether what a mark does is in the way of a clean run: it makes bits defined, or takes them as defined, or makes bytes of the heap
/// region inaccessible.
fn hinders(isa: Isa, heap: u32, act: &Act) -> bool
    ensures { result ≡ hinders isa heap act.now }
{
    match act {
        Act::Make { addr, len, kind } => match kind {
            RangeKind::Defined => true,
            RangeKind::Undefined => false,
            RangeKind::NoAccess => meets_heap(heap, *addr, *len),
        },
        Act::Set { value, undef, .. } => !(*undef == ALL_BITS && is_word(*value)),
        Act::Flip { mask, .. } => !is_word(*mask),
        Act::Write { .. } => true,
        Act::Turn { addr, .. } => !is_word(*addr),
        Act::Skip => isa.has_halves(),
        Act::Jump { .. } | Act::FlipPc { .. } => false,
    }
}

/// Returns the first mark that is in the way of a run with an instruction set and a heap region that begins at `heap`, with the mark's
/// index.
pub(crate) fn first_in_the_way(
    isa: Isa,
    heap: u32,
    marks: &[Alteration],
) -> Option<(usize, Alteration)>
    ensures some { IfSome result (λ found. IsFirstInTheWay isa heap marks.now found.0 found.1) }
    ensures none { IfNone result (NoneInTheWay isa heap marks.now) }
{
    for (index, mark) in marks.iter().enumerate() {
        if hinders(isa, heap, &mark.act) {
            return Some((index, *mark));
        }
    }
    None
}
