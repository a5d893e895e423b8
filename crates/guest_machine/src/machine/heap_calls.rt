//! The effect of the heap calls, and the heap calls by number.
ghost use Rattle.std.specs.Prelude.{◌≡◌, ◌+◌, ◌*◌, ◌≤◌, ◌<◌, max, None, Some, IfSome, IfOk, OnOk};
ghost use Rattle.std.specs.Option.{option_map};
ghost use Rattle.shadow_memory.specs.Ranges.{written, window};
ghost use Rattle.shadow_memory.specs.Changes.{AreApart};
ghost use Rattle.memory_map.specs.Regions.{greatest_heap_begin, heap_size};
ghost use Rattle.guest_heap.specs.Blocks.{greatest_size};
ghost use Rattle.guest_heap.specs.Steps.{place};
ghost use Rattle.guest_machine.specs.StackPointer.{ranged};
ghost use Rattle.guest_machine.specs.HeapCalls.{placed, closed, carved, copied, IsClearOf, given_block, freed, released_here, is_invalid, free_errors, moving_in, resizing, resized, resize_errors};
ghost use Rattle.guest_machine.specs.Effects.{no_bytes};
ghost use Rattle.guest_machine.specs.Calls.{answered};
ghost use Rattle.guest_machine.specs.Exec.{work_uses, heap_uses, calloc_uses, taken_from, written_to};
ghost use Rattle.guest_machine.specs.Spans.{span_at};
ghost use Rattle.guest_machine.specs.Shows.{core_of, bytes_of};
ghost use Rattle.guest_machine.specs.Doing.{Changes, Reports, used_of, used_in_move, DoesWork, DoesHeapCall};

use crate::environment_call::EnvironmentCall;
use crate::machine::Guest;
use crate::machine::calls::{A0, A1};
use crate::machine::step::{NOTHING, Used};
use crate::setup::Setup;
use call_stacks::Trace;
use error_events::Kind;
use guest_elf::Hook;
use guest_heap::laws::place_is_least;
use guest_heap::{Block, Released};
use run_values::Span;
use shadow_memory::RangeKind;
use std::alloc::AllocError;

impl Guest {
    /// Finds a place for a block, and allocates it there.
    fn take_place(&mut self, size: u32, redzone: u32) -> Result<Option<u32>, AllocError>
        ensures place { IfOk result (λ found. found ≡ place (core_of self.old).blocks size redzone) }
        ensures core { IfOk result (λ found. core_of self.new ≡ placed (core_of self.old) found size redzone) }
        ensures within { IfOk result (λ found. IfSome found (λ p. (redzone ≤ p) × (p + max size 1 + redzone ≤ greatest_heap_begin + heap_size))) }
        ensures small { IfOk result (λ found. IfSome found (λ p. size ≤ greatest_size)) }
        ensures apart { IfOk result (λ found. IfSome found (IsClearOf (core_of self.old).blocks size redzone)) }
        ensures memory { self.new.memory ≡ self.old.memory }
        ensures progress { self.new.progress ≡ self.old.progress }
        ensures noted { self.new.noted ≡ self.old.noted }
    {
        self.heap.in_region();
        let trace = self.frames.trace(self.pc);
        self.heap.allocate(self.alloc, size, trace, redzone)
    }

    /// Makes a block's interval inaccessible.
    fn close(&mut self, p: u32, size: u32, redzone: u32) -> Result<(), AllocError>
        requires low { redzone ≤ p }
        requires high { p + max size 1 + redzone ≤ greatest_heap_begin + heap_size }
        ensures { OnOk result (Changes self.old self.new (closed (core_of self.old) p size redzone) (bytes_of self.old)) }
    {
        let len = redzone + size.max(1) + redzone;
        self.make(p - redzone, len, RangeKind::NoAccess)
    }

    /// Makes a block's interval inaccessible, and then its bytes accessible and undefined.
    fn carve(&mut self, p: u32, size: u32, redzone: u32) -> Result<(), AllocError>
        requires low { redzone ≤ p }
        requires high { p + max size 1 + redzone ≤ greatest_heap_begin + heap_size }
        ensures { OnOk result (Changes self.old self.new (carved (core_of self.old) p size redzone RangeKind.Undefined) (bytes_of self.old)) }
    {
        self.close(p, size, redzone)?;
        self.make(p, size, RangeKind::Undefined)
    }

    /// Writes zeros, which are accessible and defined.
    #[tactic(auto, using(crate::proofs::HeapSteps::zeros_written))]
    fn write_zeros(&mut self, start: u32, len: u32) -> Result<(), AllocError>
        ensures { OnOk result (Changes self.old self.new (ranged (core_of self.old) start len RangeKind.Defined) (written (bytes_of self.old) start len no_bytes)) }
    {
        self.memory.fill(start, len, &[])?;
        Ok(())
    }

    /// Allocates a block of a size, if there is a place for it, and leaves its address as the result; 0 if there is none.
    #[tactic(auto, unfolding(crate::specs::HeapCalls::block_at))]
    fn give_block(&mut self, size: u32, redzone: u32) -> Result<(), AllocError>
        ensures { OnOk result (Changes self.old self.new (given_block (core_of self.old) size redzone RangeKind.Undefined) (bytes_of self.old)) }
    {
        match self.take_place(size, redzone)? {
            None => self.answer(0),
            Some(p) => {
                self.carve(p, size, redzone)?;
                self.answer(p);
            }
        }
        Ok(())
    }

    /// Does the same with zeros in the block. Returns where they are.
    #[tactic(auto, unfolding(crate::specs::HeapCalls::block_at))]
    fn give_zeros(&mut self, size: u32, redzone: u32) -> Result<Option<Span>, AllocError>
        ensures span { IfOk result (λ span. span ≡ option_map (λ p. span_at p size) (place (core_of self.old).blocks size redzone)) }
        ensures changes { IfOk result (λ span. Changes self.old self.new
            (given_block (core_of self.old) size redzone RangeKind.Defined) (written_to (bytes_of self.old) span no_bytes)) }
    {
        match self.take_place(size, redzone)? {
            None => {
                self.answer(0);
                Ok(None)
            }
            Some(p) => {
                self.close(p, size, redzone)?;
                self.write_zeros(p, size)?;
                self.answer(p);
                Ok(Some(Span {
                    start: p,
                    len: size,
                }))
            }
        }
    }

    /// Does nothing. Its contract says that there is no place for a block of 2^32 bytes or more.
    #[tactic(auto, using(crate::proofs::HeapSteps::no_place))]
    fn has_no_place(&self, size: u64, redzone: u32)
        requires { 0xFFFFFFFF < size }
        ensures { place (core_of self.now).blocks size redzone ≡ None }
    {
        let _size = (size, redzone);
        self.heap.in_region();
        place_is_least();
    }

    /// Allocates a block for a number of members of a size, with zeros in it. Returns where they are.
    #[tactic(auto, unfolding(crate::specs::HeapCalls::block_at))]
    fn give_members(
        &mut self,
        members: u32,
        size: u32,
        redzone: u32,
    ) -> Result<Option<Span>, AllocError>
        ensures span { IfOk result (λ span. span ≡ (calloc_uses (core_of self.old).blocks (members * size) redzone).writes) }
        ensures changes { IfOk result (λ span. Changes self.old self.new
            (given_block (core_of self.old) (members * size) redzone RangeKind.Defined) (written_to (bytes_of self.old) span no_bytes)) }
    {
        let size = u64::from(members) * u64::from(size);
        match u32::try_from(size) {
            Ok(size) => self.give_zeros(size, redzone),
            Err(_) => {
                self.has_no_place(size, redzone);
                self.answer(0);
                Ok(None)
            }
        }
    }

    /// Frees a live block; does nothing at another address. Returns whether the address is neither a live block's nor 0.
    #[tactic(auto, unfolding(crate::specs::HeapCalls::freed))]
    fn release(&mut self, p: u32, volume: u32) -> Result<bool, AllocError>
        ensures invalid { IfOk result (λ invalid. invalid ≡ is_invalid (released_here (core_of self.old) p)) }
        ensures changes { OnOk result (Changes self.old self.new (freed (core_of self.old) (released_here (core_of self.old) p) volume) (bytes_of self.old)) }
    {
        let trace = self.frames.trace(self.pc);
        match self.heap.release(self.alloc, p, trace, volume)? {
            Released::Done(block) => {
                let _freed: Option<Trace> = block.freed;
                self.make(block.start, block.size, RangeKind::NoAccess)?;
                Ok(false)
            }
            Released::Nothing => Ok(false),
            Released::Invalid => Ok(true),
        }
    }

    /// Frees the block at an address, or notes that there is none.
    #[tactic(auto, unfolding(crate::specs::HeapCalls::freed, crate::specs::HeapCalls::free_errors, crate::specs::Doing::note_events))]
    fn free(&mut self, p: u32, volume: u32) -> Result<(), AllocError>
        ensures { OnOk result (Reports self.old self.new (answered (freed (core_of self.old) (released_here (core_of self.old) p) volume) 0)
            (bytes_of self.old) (free_errors (core_of self.old) (released_here (core_of self.old) p) p)) }
    {
        if self.release(p, volume)? {
            self.raise_about(Kind::Free, Some(p))?;
        }
        self.answer(0);
        Ok(())
    }

    /// The live block that begins at an address.
    #[tactic(auto, using(crate::proofs::HeapSteps::live_there, crate::proofs::HeapSteps::live_none))]
    fn live_block(&self, p: u32) -> Option<Block>
        ensures live { result ≡ (core_of self.now).blocks.live p }
        ensures start { IfSome result (λ b. b.start ≡ p) }
    {
        match self.heap.live(p) {
            Some(block) if block.start == p => Some(block),
            _ => None,
        }
    }

    /// Copies bytes with their undefined bits.
    #[tactic(auto, using(crate::proofs::HeapSteps::copied_written))]
    fn copy(&mut self, from: u32, to: u32, n: u32) -> Result<(), AllocError>
        requires { AreApart from to n }
        ensures { OnOk result (Changes self.old self.new (copied (core_of self.old) from to n) (written (bytes_of self.old) to n (window (bytes_of self.old) from n))) }
    {
        self.memory.copy_with_shadow(from, to, n)?;
        Ok(())
    }

    /// Moves a live block to a place for another size, whose address is the result. If there is none, the block stays and the result is 0.
    #[tactic(auto, unfolding(crate::specs::HeapCalls::resized))]
    fn move_block(
        &mut self,
        block: Block,
        size: u32,
        redzone: u32,
        volume: u32,
    ) -> Result<Used, AllocError>
        requires live { (core_of self.old).blocks.live block.start ≡ Some block }
        ensures uses { IfOk result (λ used. used ≡ used_in_move (moving_in (core_of self.old).blocks block size redzone) block.start size) }
        ensures changes { IfOk result (λ used. Changes self.old self.new
            (resized (core_of self.old) block.start size redzone volume (moving_in (core_of self.old).blocks block size redzone))
            (written_to (bytes_of self.old) used.writes (taken_from (bytes_of self.old) used.reads))) }
    {
        self.heap.in_region();
        let from = block.start;
        let len = block.size.min(size);
        match self.take_place(size, redzone)? {
            None => {
                self.answer(0);
                Ok(NOTHING)
            }
            Some(to) => {
                self.carve(to, size, redzone)?;
                self.copy(from, to, len)?;
                self.release(from, volume)?;
                self.answer(to);
                Ok(Used {
                    reads: Some(Span { start: from, len }),
                    writes: Some(Span { start: to, len }),
                })
            }
        }
    }

    /// Changes the size of the block at an address.
    #[tactic(auto, unfolding(crate::specs::HeapCalls::resizing, crate::specs::HeapCalls::resized, crate::specs::HeapCalls::resize_errors, crate::specs::Doing::note_events))]
    fn resize(&mut self, p: u32, size: u32, redzone: u32, volume: u32) -> Result<Used, AllocError>
        ensures uses { IfOk result (λ used. used ≡ used_in_move (resizing (core_of self.old).blocks p size redzone) p size) }
        ensures reports { IfOk result (λ used. Reports self.old self.new
            (resized (core_of self.old) p size redzone volume (resizing (core_of self.old).blocks p size redzone))
            (written_to (bytes_of self.old) used.writes (taken_from (bytes_of self.old) used.reads))
            (resize_errors (core_of self.old) p (resizing (core_of self.old).blocks p size redzone))) }
    {
        if p == 0 {
            self.give_block(size, redzone)?;
            return Ok(NOTHING);
        }
        let Some(block) = self.live_block(p) else {
            self.raise_about(Kind::Free, Some(p))?;
            self.answer(0);
            return Ok(NOTHING);
        };
        if size == 0 {
            self.release(p, volume)?;
            self.answer(0);
            return Ok(NOTHING);
        }
        self.move_block(block, size, redzone, volume)
    }

    /// Executes a heap call with the values of a0 and a1, and returns which bytes it read and which it wrote. The call is counted; its
    /// result is in a0.
    #[tactic(auto, unfolding(crate::specs::HeapCalls::heap_work, crate::specs::Exec::work_uses, crate::specs::Doing::note_events))]
    pub(super) fn heap_work(
        &mut self,
        function: Hook,
        x: u32,
        y: u32,
        setup: &Setup,
    ) -> Result<Used, AllocError>
        ensures does { OnOk result (DoesWork self.old self.new function x y setup.now) }
        ensures uses { IfOk result (λ used. used ≡ used_of (work_uses function (core_of self.old).blocks x y setup.now.redzone)) }
    {
        self.progress.count_heap_call();
        match function {
            Hook::Malloc => {
                self.give_block(x, setup.redzone)?;
                Ok(NOTHING)
            }
            Hook::Free => {
                self.free(x, setup.volume)?;
                Ok(NOTHING)
            }
            Hook::Calloc => {
                let writes = self.give_members(x, y, setup.redzone)?;
                Ok(Used {
                    reads: None,
                    writes,
                })
            }
            Hook::Realloc => self.resize(x, y, setup.redzone, setup.volume),
        }
    }

    /// A heap call by number, which goes on at the address after it.
    #[tactic(auto, using(crate::proofs::Showing::note_events_append))]
    pub(super) fn heap_call(
        &mut self,
        next: u32,
        function: Hook,
        setup: &Setup,
    ) -> Result<Used, AllocError>
        ensures does { OnOk result (DoesHeapCall self.old self.new next function setup.now) }
        ensures uses { IfOk result (λ used. used ≡ used_of (heap_uses function (core_of self.old) setup.now.redzone)) }
    {
        let x = self.argument(A0);
        let y = self.argument(A1);
        self.test_call(EnvironmentCall::Heap(function))?;
        let used = self.heap_work(function, x, y, setup)?;
        self.advance(next);
        Ok(used)
    }
}
