//! Trials of programs' machines.
use definedness::Bits;
use guest_elf::{Hook, Image, Isa, Profile, StreamLimits, read_for};
use guest_machine::{
    Act, Alteration, Hooks, Input, Machine, Mark, Meter, Register, Setup, Span, Status, Touched,
};
use instructions::{Code, Instruction, Operation};
use memory_map::{Regions, StackRegion};
use shadow_memory::RangeKind;
use std::alloc::{AllocError, Global};
use std::process::Abort;
use test_support::program;

/// `addi a0, a0, 1`, and the same by 2.
pub(crate) const COUNT: u32 = 0x0015_0513;

const COUNT_BY_2: u32 = 0x0025_0513;

/// The state of a machine: its status and pc, a0, the number of errors, and the number of heap calls.
pub(crate) type State = (Status, u32, u32, usize, u64);

/// The number of bytes of input read, the number of bytes of output written, and whether the end was seen.
pub(crate) type Streams = (u64, u64, bool);

/// Bytes: the address of the first, and their number.
type Bytes = Option<(u32, u32)>;

/// What a step touches: its code, what it reads and what it writes.
pub(crate) type Touches = (Bytes, Bytes, Bytes);

/// What is tested of a program's machine.
pub(crate) enum Trial {
    /// Each register is defined before the first step, and 0 except for the stack pointer; the instruction set is the image's.
    Registers,
    /// What each step touches; the number of steps after that; and the state and streams then.
    Steps(&'static [Touches], u32, State, Streams),
    /// The code at the entry is this half.
    Begins(u16),
    /// It stays where it has ended.
    Rests,
    /// A mark and a written word take effect.
    Marks,
    /// A half is written into the word at the stack pointer, and loaded with it.
    PokesHalf,
    /// A register is set, bits of it are turned, and an instruction is left out.
    Alters,
    /// A copy stays as it was.
    Copies,
    /// Decoded instructions are taken over.
    Learns,
}

/// A label, a program's words, its input, whether functions of the heap have names, and what is tested of its machine.
pub(crate) type Row = (&'static str, &'static [u32], &'static [u8], bool, Trial);

pub(crate) const NO_STREAMS: Streams = (0, 0, false);

/// Returns two functions of the heap by their addresses, or none.
fn hooks_of(alloc: Global, are_named: bool) -> Result<Hooks, AllocError> {
    if !are_named {
        return Ok(Hooks::new(Vec::new(alloc)));
    }
    let named = vec![in alloc; (0, Hook::Realloc), (0x10008, Hook::Calloc)]?;
    Ok(Hooks::new(named))
}

/// Returns whether a function is found by its address, and none at another address.
pub(crate) fn are_hooks(alloc: Global) -> Result<bool, AllocError> {
    let hooks = hooks_of(alloc, true)?;
    Ok(hooks.at(0x10008) == Some(Hook::Calloc) && hooks.at(0x10004) == None)
}

/// Returns the input and the functions of a row, and a heap with Memcheck's redzone and volume of freed blocks.
fn setup_of(alloc: Global, row: &Row) -> Result<Setup, AllocError> {
    let input = Input::new(row.2.to_vec(alloc)?);
    Ok(Setup {
        input,
        redzone: 16,
        volume: 20_000_000,
        hooks: hooks_of(alloc, row.3)?,
    })
}

/// Returns the value and the undefined bits of x`number`.
fn bits_of(machine: &Machine, number: u8) -> Bits {
    machine.register(Register::new(number % 32))
}

/// Returns whether a machine is in a state.
fn is_at(machine: &Machine, state: &State) -> bool {
    let (status, pc, answer, errors, calls) = state;
    machine.status() == *status
        && machine.pc() == *pc
        && bits_of(machine, 10).value == *answer
        && machine.groups().len() == *errors
        && machine.heap_calls() == *calls
}

/// Returns whether it has read and written this much.
fn has_streams(machine: &Machine, streams: &Streams) -> bool {
    let (position, output_len, end_seen) = streams;
    machine.position() == *position
        && machine.output_len() == *output_len
        && machine.end_seen() == *end_seen
}

/// Returns the same bytes as a range.
fn span_of(bytes: Bytes) -> Option<Span> {
    bytes.map(|(start, len)| Span { start, len })
}

/// Returns whether a step touches what it should.
fn is_touched(touched: Touched, want: &Touches) -> bool {
    let (fetch, reads, writes) = want;
    touched.fetch == span_of(*fetch)
        && touched.reads == span_of(*reads)
        && touched.writes == span_of(*writes)
}

/// Returns the machine after a step for each row, if each touches what its row says.
fn touching(
    start: Machine,
    setup: &Setup,
    meter: &mut Meter,
    rows: &[Touches],
) -> Result<Option<Machine>, AllocError> {
    let mut machine = start;
    for row in rows {
        let (next, touched) = machine.step(setup, meter)?;
        machine = next;
        if !is_touched(touched, row) {
            return Ok(None);
        }
    }
    Ok(Some(machine))
}

/// Returns the machine after a number of steps.
fn stepped(
    start: Machine,
    setup: &Setup,
    meter: &mut Meter,
    steps: u32,
) -> Result<Machine, AllocError> {
    let mut machine = start;
    for _ in 0..steps {
        let (next, _) = machine.step(setup, meter)?;
        machine = next;
    }
    Ok(machine)
}

/// Returns whether a machine is in the state of a trial after its steps, each of which is counted.
fn goes(
    start: Machine,
    setup: &Setup,
    touches: &[Touches],
    steps: u32,
    there: (&State, &Streams),
) -> Result<bool, AllocError> {
    let mut meter = Meter::new();
    match touching(start, setup, &mut meter, touches)? {
        Some(touched) => {
            let machine = stepped(touched, setup, &mut meter, steps)?;
            let made = (touches.len() as u64).wrapping_add(u64::from(steps));
            Ok(meter.read() == made && is_at(&machine, there.0) && has_streams(&machine, there.1))
        }
        None => Ok(false),
    }
}

/// Returns whether a machine that has ended after two steps executes three more, and stays.
fn rests(start: Machine, setup: &Setup) -> Result<bool, AllocError> {
    let ended = stepped(start, setup, &mut Meter::new(), 2)?;
    let mut meter = Meter::new();
    let rested = ended.run(setup, 3, &mut meter)?;
    Ok(meter.read() == 3 && matches!(rested.status(), Status::Exited(_)))
}

/// Returns the value and the undefined bits of a0 after a number of steps.
fn answer(start: Machine, setup: &Setup, steps: u32) -> Result<Bits, AllocError> {
    let machine = stepped(start, setup, &mut Meter::new(), steps)?;
    Ok(bits_of(&machine, 10))
}

/// Returns whether a word that is written at the stack pointer, and marked before the first step, is loaded.
fn marks(start: Machine, setup: &Setup) -> Result<bool, AllocError> {
    let poked = start.poke_word(0x7FFF_FFF0, 0x8765_4321)?;
    let marked = poked.mark(&Mark {
        step: 0,
        addr: 0x7FFF_FFF0,
        len: 4,
        kind: RangeKind::Undefined,
    })?;
    let bits = answer(marked, setup, 1)?;
    Ok(bits.value == 0x8765_4321 && bits.undef == u32::MAX)
}

/// Returns whether a half that is written into the word at the stack pointer is loaded with it.
fn pokes_half(start: Machine, setup: &Setup) -> Result<bool, AllocError> {
    let poked = start.poke(0x7FFF_FFF2, Code::Half(0x8765))?;
    let bits = answer(poked, setup, 1)?;
    Ok(bits.value == 0x8765_0000 && bits.undef == 0)
}

/// Returns the machine with a0 set to a number, one bit of which is undefined, and bits of it turned.
fn turned(start: Machine) -> Result<Machine, AllocError> {
    let register = Register::new(10);
    let set = start.alter(&Alteration {
        step: 0,
        act: Act::Set {
            register,
            value: 5,
            undef: 1,
        },
    })?;
    set.alter(&Alteration {
        step: 0,
        act: Act::Flip { register, mask: 7 },
    })
}

/// Returns whether they are turned, and then the first instruction is left out.
fn alters(start: Machine) -> Result<bool, AllocError> {
    let skipped = turned(start)?.alter(&Alteration {
        step: 0,
        act: Act::Skip,
    })?;
    let bits = bits_of(&skipped, 10);
    Ok(bits.value == 2 && bits.undef == 1 && skipped.pc() == 0x10004)
}

/// Returns whether a machine loads the new word, and then a copy the old one.
fn loads(machine: Machine, copy: Machine, setup: &Setup) -> Result<bool, AllocError> {
    let later = answer(machine, setup, 1)?;
    let pc = copy.pc();
    let again = answer(copy, setup, 1)?;
    Ok(pc == 0x10000 && later.value == 5 && again.value == 0)
}

/// Returns whether a machine differs from a copy in just the word that was written.
fn differs_there(copy: &Machine, poked: &Machine) -> Result<bool, AllocError> {
    let Some(words) = copy.words_apart(poked)? else {
        return Ok(false);
    };
    match words.first() {
        Some(word) => {
            Ok(words.len() == 1 && word.addr == 0x7FFF_FFF0 && word.here == 0 && word.there == 5)
        }
        None => Ok(false),
    }
}

/// Returns whether a copy is the same, and stays as it was when a word is written.
fn copies(start: Machine, setup: &Setup) -> Result<bool, AllocError> {
    let copy = start.share()?;
    let is_alike = copy.is_same(&start);
    let poked = start.poke_word(0x7FFF_FFF0, 5)?;
    let is_apart = differs_there(&copy, &poked)?;
    Ok(is_alike && !copy.is_same(&poked) && is_apart && loads(poked, copy, setup)?)
}

/// Returns the machine of a program before the first step, with another first word.
fn begun_with(alloc: Global, image: &Image, first: u32) -> Result<Machine, AllocError> {
    let start = Machine::start(alloc, image)?;
    start.poke_word(0x10000, first)
}

/// Returns whether a step of the program with another first word adds this much, after it took over what a machine has decoded.
fn adds(start: Machine, setup: &Setup, decoded: &Machine, want: u32) -> Result<bool, AllocError> {
    let mut machine = start;
    machine.copy_decoded(decoded);
    Ok(answer(machine, setup, 1)?.value == want)
}

/// Returns the same for a new machine.
fn adds_anew(
    alloc: Global,
    image: &Image,
    setup: &Setup,
    decoded: &Machine,
    (first, want): (u32, u32),
) -> Result<bool, AllocError> {
    let start = begun_with(alloc, image, first)?;
    adds(start, setup, decoded, want)
}

/// Returns whether two more steps of a ready copy add to the two before.
fn goes_on(setup: &Setup, decoded: &Machine) -> Result<bool, AllocError> {
    let copy = decoded.share_warm()?;
    Ok(answer(copy, setup, 2)?.value == 3)
}

/// Returns whether three steps of the program that adds 2 add 4, if everything decoded is taken over.
fn takes_over(
    alloc: Global,
    image: &Image,
    setup: &Setup,
    decoded: &mut Machine,
) -> Result<bool, AllocError> {
    let mut machine = begun_with(alloc, image, COUNT_BY_2)?;
    machine.move_decoded(decoded);
    Ok(answer(machine, setup, 3)?.value == 4)
}

/// Returns whether decoded instructions are taken over if a machine has the same words, and not if it has others.
fn is_learnt(
    alloc: Global,
    image: &Image,
    setup: &Setup,
    decoded: &mut Machine,
) -> Result<bool, AllocError> {
    if !goes_on(setup, decoded)? {
        return Ok(false);
    }
    for adding in &[(COUNT, 1), (COUNT_BY_2, 2)] {
        if !adds_anew(alloc, image, setup, decoded, *adding)? {
            return Ok(false);
        }
    }
    takes_over(alloc, image, setup, decoded)
}

/// Returns whether an instruction adds 1 to a register.
pub(crate) fn is_count(instruction: Option<Instruction>) -> bool {
    match instruction {
        Some(
            Instruction::Immediate {
                operation: Operation::Add,
                imm: 1,
                ..
            },
        ) => true,
        _ => false,
    }
}

/// Returns whether they are taken over from the program after three steps. Its next instruction is the same before it was decoded and after.
fn learns(alloc: Global, image: &Image, start: Machine, setup: &Setup) -> Result<bool, AllocError> {
    let is_first = is_count(start.instruction());
    let mut decoded = stepped(start, setup, &mut Meter::new(), 3)?;
    let again = stepped(decoded.share_warm()?, setup, &mut Meter::new(), 1)?;
    let is_same = !is_count(decoded.instruction()) && is_count(again.instruction());
    Ok(is_first && is_same && is_learnt(alloc, image, setup, &mut decoded)?)
}

/// Returns whether each register of a machine before its first step is defined, and 0 except for the stack pointer, and whether the
/// instruction set is that of `read`.
fn has_registers(machine: &Machine) -> bool {
    for number in 0..32 {
        let value = if number == 2 { 0x7FFF_FFF0 } else { 0 };
        let bits = bits_of(machine, number);
        if bits.value != value || bits.undef != 0 {
            return false;
        }
    }
    machine.isa() == Isa::RV32IM
}

/// Returns whether a trial passes on an image.
fn goes_well(
    alloc: Global,
    image: &Image,
    setup: &Setup,
    trial: &Trial,
) -> Result<bool, AllocError> {
    let start = Machine::start(alloc, image)?;
    match trial {
        Trial::Steps(touches, steps, state, streams) => {
            goes(start, setup, touches, *steps, (state, streams))
        }
        Trial::Registers => Ok(has_registers(&start)),
        Trial::Begins(half) => Ok(
            matches!(start.code(), Some(Code::Half(first)) if first == *half),
        ),
        Trial::Rests => rests(start, setup),
        Trial::Marks => marks(start, setup),
        Trial::PokesHalf => pokes_half(start, setup),
        Trial::Alters => alters(start),
        Trial::Copies => copies(start, setup),
        Trial::Learns => learns(alloc, image, start, setup),
    }
}

/// Returns the profile of an instruction set with the usual regions.
fn profile_of(isa: Isa) -> Option<Profile> {
    let stack = StackRegion {
        begin: 0x7F00_0000,
        end: 0x8000_0000,
    };
    match Regions::new(0x4000_0000, stack) {
        Ok(regions) => Some(Profile {
            isa,
            regions,
            limits: StreamLimits::USUAL,
        }),
        Err(_) => None,
    }
}

/// Returns whether a row holds for a file, under an instruction set.
fn is_so_of(alloc: Global, file: &[u8], isa: Isa, row: &Row) -> Result<bool, AllocError> {
    let setup = setup_of(alloc, row)?;
    let Some(profile) = profile_of(isa) else {
        return Ok(false);
    };
    match read_for(alloc, file, profile) {
        Ok(image) => goes_well(alloc, &image, &setup, &row.4),
        Err(_) => Ok(false),
    }
}

/// Returns whether it holds for a new file.
fn is_so(alloc: Global, isa: Isa, row: &Row) -> Result<bool, AllocError> {
    let file = program(alloc, row.1)?;
    is_so_of(alloc, &file, isa, row)
}

/// Asserts that rows hold under RV32IM.
pub(crate) fn assert_so(rt: &impl Abort, alloc: Global, rows: &[Row]) {
    assert_so_for(rt, alloc, Isa::RV32IM, rows);
}

/// Asserts that rows hold under an instruction set.
pub(crate) fn assert_so_for(rt: &impl Abort, alloc: Global, isa: Isa, rows: &[Row]) {
    for row in rows {
        assert!(rt; matches!(is_so(alloc, isa, row), Ok(true)), "{}", row.0);
    }
}
