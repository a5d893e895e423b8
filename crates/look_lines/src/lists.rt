//! The replies to looks that list something, as text.
ghost use Rattle.std.specs.Prelude.{◌≡◌, ℕ, List, ◌++◌, if◌then◌else◌, codes, decimal, is_some, map, option_map, option_to_list, OnOk};
ghost use Rattle.std.specs.List.{flat_map};
ghost use Rattle.guest_heap.specs.Heaps.{blocks_of};
ghost use Rattle.guest_machine.specs.State.{State};
ghost use Rattle.guest_machine.specs.Shows.{Shows};
ghost use Rattle.report_lines.specs.Text.{address_text};
ghost use Rattle.look_lines.specs.Lists.{block_line, blocks_end, calls_end, calls_text, happened_line, ListsBlocks, spaced, stack_text, trace_shown, what_text};

use call_stacks::{Block, CallStack, Frame, Trace};
use checkpoints::{Happened, Happening};
use guest_heap::Heap;
use guest_machine::Machine;
use report_lines::{push_address, push_number, push_text};
use std::alloc::AllocError;

/// The number of blocks that a look may list.
const MOST_BLOCKS: usize = 64;

/// The number of things that happen in steps that a look may list.
pub const MOST_HAPPENED: usize = 1024;

/// The number of addresses of a trace that are shown of a block.
const SHOWN: u32 = 3;

/// Appends a space and an address.
#[tactic(auto, using(std::proofs::Common::append_assoc))]
fn push_spaced(out: &mut Vec<u8>, address: u32) -> Result<(), AllocError>
    ensures { OnOk result (out.new.items ≡ out.old.items ++ spaced address) }
{
    push_text(out, b" ")?;
    push_address(out, address)
}

/// Appends the site of a call, if there is one.
fn push_site(out: &mut Vec<u8>, frame: Option<Frame>) -> Result<(), AllocError>
    ensures { OnOk result (out.new.items ≡ out.old.items ++ flat_map spaced (map (λ frame. frame.site) (option_to_list frame))) }
{
    match frame {
        Some(frame) => push_spaced(out, frame.site),
        None => Ok(()),
    }
}

/// Appends the sites of calls, newest first.
fn push_sites(out: &mut Vec<u8>, frames: &CallStack) -> Result<(), AllocError>
    ensures { OnOk result (out.new.items ≡ out.old.items ++ flat_map spaced (map (λ frame. frame.site) frames.now)) }
{
    for i in 0..frames.depth() {
        push_site(out, frames.frame(i))?;
    }
    Ok(())
}

/// Appends the line of the calls that a machine is in.
#[tactic(auto, unfolding(crate::specs::Lists::stack_text), using(std::proofs::Common::append_assoc))]
pub fn push_stack(out: &mut Vec<u8>, machine: &Machine) -> Result<(), AllocError>
    ensures { OnOk result ((s : State) → Shows machine.now s → out.new.items ≡ out.old.items ++ stack_text s) }
{
    push_text(out, b"stack")?;
    push_spaced(out, machine.pc())?;
    push_sites(out, machine.frames())?;
    push_text(out, b"\n")
}

/// Appends addresses, each after a space.
fn push_each(out: &mut Vec<u8>, addresses: &[u32]) -> Result<(), AllocError>
    ensures { OnOk result (out.new.items ≡ out.old.items ++ flat_map spaced addresses.now) }
{
    for address in addresses {
        push_spaced(out, *address)?;
    }
    Ok(())
}

/// Whether a block is live or freed.
fn state_of(block: &Block) -> &'static [u8]
    ensures { result.now ≡ (if is_some block.now.freed then codes " freed" else codes " live") }
{
    if block.freed.is_some() {
        b" freed"
    } else {
        b" live"
    }
}

/// The trace of which a part is shown: where a block was freed, or else where it was allocated.
fn trace_shown(block: &Block) -> Trace
    ensures { result ≡ trace_shown block.now }
{
    match &block.freed {
        Some(trace) => trace.front(SHOWN),
        None => block.trace.front(SHOWN),
    }
}

/// Appends the line of a block.
#[tactic(auto, unfolding(crate::specs::Lists::block_line), using(std::proofs::Common::append_assoc))]
fn push_block(out: &mut Vec<u8>, block: &Block) -> Result<(), AllocError>
    ensures { OnOk result (out.new.items ≡ out.old.items ++ block_line block.now) }
{
    push_text(out, b"block ")?;
    push_address(out, block.start)?;
    push_text(out, b" ")?;
    push_number(out, u64::from(block.size))?;
    push_text(out, state_of(block))?;
    push_each(out, trace_shown(block).addresses())?;
    push_text(out, b"\n")
}

/// Appends the last line of a list of blocks: where the next one starts, or that there are no more.
#[tactic(auto, unfolding(crate::specs::Lists::blocks_end), using(std::proofs::Common::append_assoc))]
fn push_blocks_end(out: &mut Vec<u8>, next: Option<u32>) -> Result<(), AllocError>
    ensures { OnOk result (out.new.items ≡ out.old.items ++ blocks_end next) }
{
    match next {
        Some(start) => {
            push_text(out, b"next ")?;
            push_address(out, start)?;
            push_text(out, b"\n")
        }
        None => push_text(out, b"end\n"),
    }
}

/// Where a block starts, if there is one.
fn start_of(block: Option<Block>) -> Option<u32>
    ensures { result ≡ option_map (λ b. b.start) block }
{
    match block {
        Some(block) => Some(block.start),
        None => None,
    }
}

/// Appends the list of the kept blocks of a heap from an address on.
fn push_kept(out: &mut Vec<u8>, heap: &Heap, from: u32) -> Result<(), AllocError>
    ensures { OnOk result ((text : List ℕ) × ListsBlocks (blocks_of heap.now) from text × (out.new.items ≡ out.old.items ++ text)) }
{
    let mut at = from;
    for i in 0..MOST_BLOCKS {
        let Some(block) = heap.kept(at) else {
            return push_blocks_end(out, None);
        };
        push_block(out, &block)?;
        at = block.start + 1;
    }
    push_blocks_end(out, start_of(heap.kept(at)))
}

/// Appends the list of the kept blocks of a machine's heap from an address on.
pub fn push_blocks(out: &mut Vec<u8>, machine: &Machine, from: u32) -> Result<(), AllocError>
    ensures { OnOk result ((s : State) → Shows machine.now s
        → (text : List ℕ) × ListsBlocks s.core.blocks from text × (out.new.items ≡ out.old.items ++ text)) }
{
    push_kept(out, machine.heap(), from)
}

/// Appends an address and the number of frames that there are then, each after a space.
#[tactic(auto, using(std::proofs::Common::append_assoc))]
fn push_frame(out: &mut Vec<u8>, to: u32, depth: usize) -> Result<(), AllocError>
    ensures { OnOk result (out.new.items ≡ out.old.items ++ address_text to ++ codes " " ++ decimal depth) }
{
    push_address(out, to)?;
    push_text(out, b" ")?;
    push_number(out, depth as u64)
}

/// Appends what a step does.
#[tactic(auto, unfolding(crate::specs::Lists::what_text), using(std::proofs::Common::append_assoc))]
fn push_what(out: &mut Vec<u8>, what: Happening) -> Result<(), AllocError>
    ensures { OnOk result (out.new.items ≡ out.old.items ++ what_text what) }
{
    match what {
        Happening::Call { to, depth } => {
            push_text(out, b"call ")?;
            push_frame(out, to, depth)
        }
        Happening::Return { to, depth } => {
            push_text(out, b"return ")?;
            push_frame(out, to, depth)
        }
        Happening::Heap { depth } => {
            push_text(out, b"heap ")?;
            push_number(out, depth as u64)
        }
        Happening::Input { count } => {
            push_text(out, b"input ")?;
            push_number(out, count)
        }
        Happening::Output { count } => {
            push_text(out, b"output ")?;
            push_number(out, count)
        }
    }
}

/// Appends the line of what happens in a step.
#[tactic(auto, unfolding(crate::specs::Lists::happened_line), using(std::proofs::Common::append_assoc))]
fn push_happened(out: &mut Vec<u8>, happened: &Happened) -> Result<(), AllocError>
    ensures { OnOk result (out.new.items ≡ out.old.items ++ happened_line happened.now) }
{
    push_number(out, u64::from(happened.step))?;
    push_text(out, b" ")?;
    push_what(out, happened.what)?;
    push_text(out, b"\n")
}

/// Appends the lines of what happens in steps.
fn push_all(out: &mut Vec<u8>, found: &[Happened]) -> Result<(), AllocError>
    ensures { OnOk result (out.new.items ≡ out.old.items ++ flat_map happened_line found.now) }
{
    for happened in found {
        push_happened(out, happened)?;
    }
    Ok(())
}

/// Appends the last line of a list of what happens: the step after the last of as many as there may be, or that there are no more.
#[tactic(auto, unfolding(crate::specs::Lists::calls_end), using(std::proofs::Common::append_assoc))]
fn push_calls_end(out: &mut Vec<u8>, last: Option<Happened>) -> Result<(), AllocError>
    ensures { OnOk result (out.new.items ≡ out.old.items ++ calls_end last) }
{
    match last {
        Some(last) => {
            push_text(out, b"next ")?;
            push_number(out, u64::from(last.step) + 1)?;
            push_text(out, b"\n")
        }
        None => push_text(out, b"end\n"),
    }
}

/// Appends the list of what happens in steps.
#[tactic(auto, unfolding(crate::specs::Lists::calls_text), using(std::proofs::Common::append_assoc))]
pub fn push_calls(out: &mut Vec<u8>, found: &[Happened]) -> Result<(), AllocError>
    ensures { OnOk result (out.new.items ≡ out.old.items ++ calls_text found.now) }
{
    push_all(out, found)?;
    push_calls_end(out, found.get(MOST_HAPPENED - 1).copied())
}
