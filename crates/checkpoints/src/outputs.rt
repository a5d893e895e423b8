//! A part of the output at a step of a run, from the steps that write it.
ghost use Rattle.std.specs.Prelude.{◌≡◌, ◌+◌, ◌*◌, ◌++◌, ◌∷◌, [], ◌<◌, ◌≤◌, List, ℕ, Some, if◌then◌else◌, length, min, IfOk, OnOk, OnErr};
ghost use Rattle.shadow_memory.specs.Memories.{bytes_in};
ghost use Rattle.guest_machine.specs.State.{State};
ghost use Rattle.guest_machine.specs.Exec.{exec};
ghost use Rattle.guest_machine.specs.Run.{pre, post};
ghost use Rattle.guest_machine.specs.Shows.{Shows};
ghost use Rattle.guest_machine.specs.Streams.{bytes_over};
ghost use Rattle.guest_machine.specs.declared.setup.Setup.{Setup as SetupOf};
ghost use Rattle.run_values.specs.declared.alteration.Alteration.{Alteration as AlterationOf};
ghost use Rattle.checkpoints.specs.Outputs.{part};
ghost use Rattle.checkpoints.specs.Trails.{machines_of, meter_of, is_short, loaded_of, last_held, IsRightFor, spacing_of};
ghost use Rattle.checkpoints.specs.Words.{has_address};
ghost use Rattle.checkpoints.specs.Work.{floor, reached, steps_made};

use crate::running::{next_step, pass_marks};
use crate::trail::Trail;
use guest_machine::laws::writes_what_it_reads;
use guest_machine::{Alteration, Machine, Setup, Span};
use shadow_memory::Memory;
use std::alloc::{AllocError, Global};

impl Trail {
    /// Returns the bytes of the output at a step that are in a range of positions: those that there are. The trail is moved as
    /// [`Trail::at`] the step moves it. The steps that write the bytes are executed again, from a held machine on, and count on no meter.
    pub fn output(
        &mut self,
        alloc: Global,
        range: Span,
        step: u32,
        setup: &Setup,
        marks: &[Alteration],
    ) -> Result<Vec<u8>, AllocError>
        ensures part { IfOk result (λ bytes. (start : State) → start.output ≡ [] → IsRightFor self.old start setup.now marks.now
            → bytes.items ≡ part range (post start setup.now marks.now step).output) }
        ensures right { (start : State) → IsRightFor self.old start setup.now marks.now → IsRightFor self.new start setup.now marks.now }
        ensures held { OnOk result (last_held self.new ≡ reached (spacing_of self.old) (last_held self.old) step) }
        ensures kept { OnErr result (last_held self.old ≤ last_held self.new) }
        ensures meter { OnOk result (meter_of self.new ≡ min (meter_of self.old + steps_made (spacing_of self.old) (last_held self.old) step) u64.MAX) }
        ensures short { is_short self.new ≡ is_short self.old }
        ensures loaded { loaded_of self.new ≡ loaded_of self.old }
        ensures spacing { spacing_of self.new ≡ spacing_of self.old }
    {
        let machine = self.before(step, setup, marks)?;
        let written = machine.output_len();
        let bytes = self.output_in(alloc, range, written, step, setup, marks)?;
        Ok(bytes)
    }

    /// The bytes in a range of the output before a step, which has `written` bytes, if there is a held machine to begin with.
    #[tactic(auto, unfolding(crate::specs::Trails::machines_of, crate::specs::Trails::last_held, crate::specs::Trails::spacing_of))]
    fn output_in(
        &self,
        alloc: Global,
        range: Span,
        written: u64,
        step: u32,
        setup: &Setup,
        marks: &[Alteration],
    ) -> Result<Vec<u8>, AllocError>
        requires { floor (spacing_of self.now) step ≤ last_held self.now }
        ensures { IfOk result (λ bytes. (start : State) → start.output ≡ [] → IsRightFor self.now start setup.now marks.now
            → written ≡ length (pre start setup.now marks.now step).output
            → bytes.items ≡ part range (pre start setup.now marks.now step).output) }
    {
        let end = lesser(u64::from(range.start) + u64::from(range.len), written);
        let place = self.place_before((step / self.spacing) as usize, range.start);
        let copy = self.warm_copy(place)?;
        let wanted = Wanted { range, end };
        collect(
            alloc,
            copy,
            setup,
            marks,
            wanted,
            place as u32 * self.spacing,
            step,
        )
    }

    /// The last place, up to another, of a held machine that has written no byte from a position on.
    #[tactic(auto, unfolding(crate::specs::Trails::machines_of, crate::specs::Trails::spacing_of))]
    fn place_before(&self, place: usize, position: u32) -> usize
        requires { place < length (machines_of self.now) }
        ensures within { result ≤ place }
        ensures before { (start : State) (setup : SetupOf) (marks : List AlterationOf) → start.output ≡ [] → IsRightFor self.now start setup marks
            → length (pre start setup marks (spacing_of self.now * result)).output ≤ position }
    {
        let mut place = place;
        while place > 0 {
            if self.held.at(place).output_len() <= u64::from(position) {
                return place;
            }
            place -= 1;
        }
        place
    }
}

/// The lesser of two numbers.
fn lesser(x: u64, y: u64) -> u64
    ensures { result ≡ min x y }
{
    if x < y { x } else { y }
}

/// Bytes of the output: their range, and the number of bytes that are written when all of them are.
#[derive(Clone, Copy)]
struct Wanted {
    range: Span,
    end: u64,
}

/// The bytes in a range of the output before a step, from a machine at an earlier step that has written none of them. Ends early once
/// `end` bytes are written, which is at the range's end or all that are written before the step.
fn collect(
    alloc: Global,
    machine: Machine,
    setup: &Setup,
    marks: &[Alteration],
    wanted: Wanted,
    from: u32,
    to: u32,
) -> Result<Vec<u8>, AllocError>
    requires { from ≤ to }
    ensures { IfOk result (λ bytes. (start : State) → Shows machine (pre start setup.now marks.now from)
        → length (pre start setup.now marks.now from).output ≤ wanted.range.start
        → wanted.end ≡ min (wanted.range.start + wanted.range.len) (length (pre start setup.now marks.now to).output)
        → bytes.items ≡ part wanted.range (pre start setup.now marks.now to).output) }
{
    writes_what_it_reads();
    let Wanted { range, end } = wanted;
    let mut machine = machine;
    let mut next = next_step(marks, from);
    let mut bytes = Vec::new(alloc);
    for k in from..to {
        if machine.output_len() >= end {
            return Ok(bytes);
        }
        let marked = pass_marks(machine, marks, k, &mut next)?;
        machine = step_collecting(marked, setup, range, &mut bytes)?;
    }
    Ok(bytes)
}

/// Executes one step, and appends those of the bytes that it writes out that are in a range of the output.
#[inline(always)]
fn step_collecting(
    machine: Machine,
    setup: &Setup,
    range: Span,
    bytes: &mut Vec<u8>,
) -> Result<Machine, AllocError>
    ensures shows { IfOk result (λ r. (s : State) → Shows machine s → Shows r (exec s setup.now)) }
    ensures part { OnOk result ((s : State) → Shows machine s → bytes.old.items ≡ part range s.output
        → bytes.new.items ≡ part range (exec s setup.now).output) }
{
    writes_what_it_reads();
    let written = machine.output_len();
    let (stepped, touched) = machine.step_on(setup)?;
    if stepped.output_len() == written {
        return Ok(stepped);
    }
    push_part(bytes, stepped.memory(), touched.reads, written, range)?;
    Ok(stepped)
}

/// Appends those of the bytes of a piece of memory, if there is one, that are in a range of the output if `written` bytes come before them.
#[inline(never)]
fn push_part(
    bytes: &mut Vec<u8>,
    memory: &Memory,
    piece: Option<Span>,
    written: u64,
    range: Span,
) -> Result<(), AllocError>
    ensures { OnOk result ((xs : List ℕ) → written ≡ length xs → bytes.old.items ≡ part range xs
        → bytes.new.items ≡ part range (xs ++ bytes_over (bytes_in memory.now) piece)) }
{
    match piece {
        Some(piece) => push_piece(bytes, memory, piece, written, range),
        None => Ok(()),
    }
}

/// The same, of a piece.
#[tactic(auto, unfolding(guest_machine::specs::Streams::bytes_over))]
fn push_piece(
    bytes: &mut Vec<u8>,
    memory: &Memory,
    piece: Span,
    written: u64,
    range: Span,
) -> Result<(), AllocError>
    ensures { OnOk result ((xs : List ℕ) → written ≡ length xs → bytes.old.items ≡ part range xs
        → bytes.new.items ≡ part range (xs ++ bytes_over (bytes_in memory.now) (Some piece))) }
{
    for i in 0..piece.len {
        let byte = memory.byte(piece.start.wrapping_add(i)).byte;
        push_if(bytes, is_within(range, written, i), byte)?;
    }
    Ok(())
}

/// Whether the position that lies a number of positions after another one is in a range.
fn is_within(range: Span, position: u64, after: u32) -> bool
    ensures { result ≡ has_address range (position + after) }
{
    let after = u64::from(after);
    let end = u64::from(range.start) + u64::from(range.len);
    u64::from(range.start).saturating_sub(position) <= after && after < end.saturating_sub(position)
}

/// Appends a byte if it is wanted.
fn push_if(bytes: &mut Vec<u8>, wanted: bool, byte: u8) -> Result<(), AllocError>
    ensures { OnOk result (bytes.new.items ≡ bytes.old.items ++ (if wanted then byte ∷ [] else [])) }
{
    if wanted {
        bytes.push(byte)?;
    }
    Ok(())
}
