//! What a step writes out.
ghost use Rattle.std.specs.Prelude.{◌≡◌, ◌≤◌, ◌<◌, ◌^◌, ℕ, IfErr, IfOk, OnOk, Some, length, take};
ghost use Rattle.std.specs.Io.KnownBytes.{Appends};
ghost use Rattle.shadow_memory.specs.Memories.{bytes_in};
ghost use Rattle.guest_machine.specs.Streams.{bytes_over};
ghost use Rattle.test_runs.specs.Executions.{GivesTo, held, open_after, part_to};

use crate::fault::ExecutionFault;
use crate::streams::Streams;
use guest_machine::Span;
use line_protocol::send;
use shadow_memory::Memory;
use std::alloc::{AllocError, Global};
use std::io::Write;

/// The most bytes that are kept before they are written.
const AT_ONCE: u32 = 65_536;

/// Returns the bytes of a range, in order.
#[tactic(auto, unfolding(guest_machine::specs::Streams::bytes_over))]
fn bytes_of(alloc: Global, memory: &Memory, range: Span) -> Result<Vec<u8>, AllocError>
    ensures { IfOk result (λ bytes. bytes.items ≡ bytes_over (bytes_in memory.now) (Some range)) }
{
    let mut bytes = Vec::new(alloc);
    for i in 0..range.len {
        bytes.push(memory.byte(range.start.wrapping_add(i)).byte)?;
    }
    Ok(bytes)
}

/// Writes the bytes of a range of at most 65,536 bytes.
fn send_part<W: Write>(
    alloc: Global,
    memory: &Memory,
    range: Span,
    writer: &mut W,
) -> Result<(), ExecutionFault>
    ensures ok { OnOk result (Appends (W.contents writer.old) (W.contents writer.new) (bytes_over (bytes_in memory.now) (Some range))) }
    ensures err { IfErr result (λ fault. (sent : ℕ) × (sent ≤ length (bytes_over (bytes_in memory.now) (Some range)))
        × Appends (W.contents writer.old) (W.contents writer.new) (take sent (bytes_over (bytes_in memory.now) (Some range)))) }
{
    let piece = bytes_of(alloc, memory, range)?;
    if send(writer, &piece).whole {
        Ok(())
    } else {
        Err(ExecutionFault::WriteFailed)
    }
}

/// Writes the bytes of a range, part by part.
fn send_range<W: Write>(
    alloc: Global,
    memory: &Memory,
    range: Span,
    writer: &mut W,
) -> Result<(), ExecutionFault>
    ensures ok { OnOk result (Appends (W.contents writer.old) (W.contents writer.new) (bytes_over (bytes_in memory.now) (Some range))) }
    ensures err { IfErr result (λ fault. (sent : ℕ)
        × Appends (W.contents writer.old) (W.contents writer.new) (take sent (bytes_over (bytes_in memory.now) (Some range)))) }
{
    let mut done = 0;
    while done < range.len {
        let part = Span {
            start: range.start.wrapping_add(done),
            len: (range.len - done).min(AT_ONCE),
        };
        send_part(alloc, memory, part, writer)?;
        done += part.len;
    }
    Ok(())
}

/// Writes the bytes of a range to the stream of a descriptor.
fn send_to<O: Write, E: Write>(
    alloc: Global,
    memory: &Memory,
    range: Span,
    descriptor: u32,
    streams: &mut Streams<O, E>,
) -> Result<(), ExecutionFault>
    ensures ok { OnOk result (GivesTo descriptor (held (O.contents streams.old.out) (E.contents streams.old.err))
        (held (O.contents streams.new.out) (E.contents streams.new.err)) (bytes_over (bytes_in memory.now) (Some range))) }
    ensures err { IfErr result (λ fault. (sent : ℕ)
        × GivesTo descriptor (held (O.contents streams.old.out) (E.contents streams.old.err))
        (held (O.contents streams.new.out) (E.contents streams.new.err)) (take sent (bytes_over (bytes_in memory.now) (Some range)))) }
{
    match descriptor {
        1 => send_range(alloc, memory, range, &mut streams.out),
        2 => send_range(alloc, memory, range, &mut streams.err),
        _ => Ok(()),
    }
}

/// Returns whether the last line of standard error is open after the bytes of a range that are written to a descriptor.
fn is_open_after(was: bool, memory: &Memory, range: Span, descriptor: u32) -> bool
    ensures { result ≡ open_after was (part_to descriptor 2 (bytes_over (bytes_in memory.now) (Some range))) }
{
    if descriptor != 2 || range.len == 0 {
        return was;
    }
    memory.byte(range.start.wrapping_add(range.len - 1)).byte != b'\n'
}

/// Writes the bytes of a range, if there is one, to the stream of a descriptor. Returns whether the last line of standard error is open
/// after them.
pub(crate) fn speak<O: Write, E: Write>(
    alloc: Global,
    memory: &Memory,
    range: Option<Span>,
    descriptor: u32,
    was_open: bool,
    streams: &mut Streams<O, E>,
) -> Result<bool, ExecutionFault>
    ensures ok { IfOk result (λ is_open. GivesTo descriptor (held (O.contents streams.old.out) (E.contents streams.old.err))
        (held (O.contents streams.new.out) (E.contents streams.new.err)) (bytes_over (bytes_in memory.now) range)) }
    ensures line { IfOk result (λ is_open. is_open ≡ open_after was_open (part_to descriptor 2 (bytes_over (bytes_in memory.now) range))) }
    ensures err { IfErr result (λ fault. (sent : ℕ)
        × GivesTo descriptor (held (O.contents streams.old.out) (E.contents streams.old.err))
        (held (O.contents streams.new.out) (E.contents streams.new.err)) (take sent (bytes_over (bytes_in memory.now) range))) }
{
    match range {
        Some(range) => {
            send_to(alloc, memory, range, descriptor, streams)?;
            Ok(is_open_after(was_open, memory, range, descriptor))
        }
        None => Ok(was_open),
    }
}
