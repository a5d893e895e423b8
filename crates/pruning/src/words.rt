//! What a word of memory is to the next step of a machine.
ghost use Rattle.std.specs.Prelude.{◌≡◌, ◌%◌, ◌<◌};
ghost use Rattle.shadow_memory.specs.Memories.{bytes_in};
ghost use Rattle.guest_machine.specs.State.{State};
ghost use Rattle.guest_machine.specs.Shows.{Shows};
ghost use Rattle.guest_machine.specs.Exec.{has_touched, touched_of};
ghost use Rattle.guest_machine.specs.Spans.{covers};
ghost use Rattle.guest_machine.specs.declared.setup.Setup.{Setup as SetupOf};
ghost use Rattle.pruning.specs.Laws.{HasBytes};
ghost use Rattle.pruning.specs.Words.{passing_word};
ghost use Rattle.pruning.specs.declared.passing.Passing.TheVariants.{Keeps};

use crate::passing::Passing;
use guest_machine::{Machine, Span, Touched};
use shadow_memory::Memory;

/// Whether an address is in a range, if there is one.
fn covers(range: Option<Span>, addr: u32) -> bool
    ensures { result ≡ covers range addr }
{
    match range {
        None => false,
        Some(range) => addr.wrapping_sub(range.start) < range.len,
    }
}

/// Whether an address is in one of the ranges that a step touches.
fn has_touched(touched: Touched, addr: u32) -> bool
    ensures { result ≡ has_touched touched addr }
{
    let is_fetched = covers(touched.fetch, addr);
    let is_read = covers(touched.reads, addr);
    let is_written = covers(touched.writes, addr);
    is_fetched || is_read || is_written
}

/// What the word at a multiple of 4 is to a step that touches these ranges.
#[tactic(auto, unfolding(crate::specs::Words::passing_word, guest_machine::specs::Exec::touches))]
fn passing_of_touched(touched: Touched, addr: u32) -> Passing
    requires { addr % 4 ≡ 0 }
    ensures { (s : State) (setup : SetupOf) → touched ≡ touched_of s setup → result ≡ passing_word s setup addr }
{
    let front = has_touched(touched, addr) || has_touched(touched, addr + 1);
    let back = has_touched(touched, addr + 2) || has_touched(touched, addr + 3);
    if front || back {
        Passing::Looks
    } else {
        Passing::Keeps
    }
}

/// A byte of a memory, which is less than 256.
fn byte_at(memory: &Memory, addr: u32) -> u8
    ensures value { result ≡ bytes_in memory.now addr }
    ensures fits { result < 256 }
{
    memory.byte(addr).byte
}

/// Returns what the word of memory at an address is to the next step of a machine, which touches these ranges. The bytes of the word are
/// less than 256.
#[tactic(auto, unfolding(crate::specs::Words::passing_word))]
pub fn passing_word(machine: &Machine, touched: Touched, addr: u32) -> Passing
    ensures passing { (s : State) (setup : SetupOf) → touched ≡ touched_of s setup → result ≡ passing_word s setup addr }
    ensures bytes { (s : State) → Shows machine.now s → result ≡ Keeps → HasBytes s addr }
{
    if addr % 4 != 0 {
        return Passing::Looks;
    }
    let memory = machine.memory();
    let _bytes = [
        byte_at(memory, addr),
        byte_at(memory, addr + 1),
        byte_at(memory, addr + 2),
        byte_at(memory, addr + 3),
    ];
    passing_of_touched(touched, addr)
}
