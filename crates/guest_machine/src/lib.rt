//! One step of an RV32 program, with what Memcheck knows of each byte and of each bit: the layer between a program's image and its runs. The
//! image says which instruction set it is for.
//!
//! A [`Machine`] holds for each of the 2^32 addresses a byte, whether the byte may be accessed, and which of its bits are undefined; the 32
//! registers with their undefined bits; pc; whether it runs; the frames of the calls that it is in; the blocks of the heap; the address that
//! is reserved for an atomic store, if one is; the control registers, and the number of steps where there are counters of it; how much of
//! the input was read, how much output was written, and the number of heap calls; and the errors so far, counted by kind and trace.
//! [`Machine::step`] executes one instruction (ECALL included), or one call of a function of the heap that the setup names by its first
//! address. [`Machine::run`] executes many steps. Between steps a range can be marked, a code poked, and the machine altered in other ways.
//! Once the machine is halted, a step changes nothing, and `run` executes none.
//!
//! # Public items
//!
//! | Call | What it does |
//! |---|---|
//! | [`Machine::start`] | returns the machine before the first step of an image |
//! | [`Machine::step`] | returns the machine after one step, and the ranges whose bytes it read or wrote |
//! | [`Machine::step_on`] | the same without a meter; doesn't say whether the step raised an error |
//! | [`Machine::step_decoded`] | makes the step if it executes an instruction of four bytes that was decoded recently; returns whether it did |
//! | [`Machine::run`] | returns the machine many steps later |
//! | [`Machine::run_quietly`] | likewise, at most up to the next step that may be an ECALL; and how many steps that were |
//! | [`Machine::rests`], [`Machine::rest_for`] | return whether steps do nothing but count; the machine after a number of those |
//! | [`Machine::mark`] | returns the machine with a range made inaccessible, undefined or defined |
//! | [`Machine::alter`] | returns the machine with any [`Alteration`] made: a range, a register, pc, or bytes |
//! | [`Machine::poke`], [`Machine::poke_word`] | returns the machine with the bytes of a code at an address changed, or four bytes |
//! | [`Machine::share`] | returns a copy, which later changes of the original don't reach |
//! | [`Machine::share_moving`] | likewise, for the copy that continues the run: what was decoded moves to it |
//! | [`Machine::share_warm`] | likewise, for one of several such copies: it has decoded what this one has |
//! | [`Machine::copy_decoded`], [`Machine::move_decoded`] | copy or move what another machine has decoded, for the codes that are the same in both |
//! | [`Machine::is_same`] | returns whether another machine shows the same |
//! | [`Machine::words_apart`] | returns the words in which another machine has other bytes, if it shows the same but for these |
//! | [`Machine::status`], [`Machine::pc`], [`Machine::register`] | return whether it runs, and its registers |
//! | [`Machine::control`] | returns a control register, if the instruction set has those |
//! | [`Machine::heap_begin`] | returns the first address of the heap's region |
//! | [`Machine::isa`], [`Machine::code`], [`Machine::instruction`] | return the instruction set, which is the image's, the code at pc, and its instruction |
//! | [`Machine::position`], [`Machine::end_seen`] | return how much of the input was read so far, and whether its end was seen |
//! | [`Machine::output_len`], [`Machine::heap_calls`] | return the number of bytes written and of heap calls so far |
//! | [`Machine::has_raised`] | returns whether the last step by [`Machine::step`] raised an error |
//! | [`Machine::memory`], [`Machine::heap`], [`Machine::frames`] | return the bytes with what is known of them, the blocks of the heap, and the frames of the calls that it is in |
//! | [`Machine::groups`] | returns the errors so far, in order of first occurrence |
//! | [`Hooks::new`], [`Hooks::at`] | return the functions of the heap that are called by name, from a list in order of address; the one that begins at an address |
//! | [`Input::new`], [`Input::len`], [`Input::into_vec`] | return the bytes that can be read, from a vector; their number; the vector again |
//! | [`Input::push`], [`Input::pop`] | append a byte to the input, or remove its last one |
//! | [`Register::new`] | the register of a number below 32 |
//! | [`Meter::new`], [`Meter::read`], [`Meter::rise_by`] | a count of steps, raised by `step`, by `run` and by the steps that a caller counted |
//! | [`laws::keeps_words`], [`laws::keeps_apart`], [`laws::keeps_input`], [`laws::keeps_heap`], [`laws::keeps_pokes`] | do nothing; their contracts are laws of one step |
//! | [`laws::reads_on`], [`laws::keeps_end`], [`laws::end_stays`], [`laws::stays_halted`] | likewise |
//! | [`laws::keeps_isa`], [`laws::keeps_regions`], [`laws::keeps_limits`], [`laws::goes_by_fours`], [`laws::lacks_extensions`], [`laws::lacks_atomics`] | likewise, on the instruction set, the regions and the limits of calls |
//! | [`laws::alters_as_marked`], [`laws::runs_as_marked`] | likewise; their contracts say what marks are as alterations |
//!
//! [`Setup`], [`Input`], [`Hooks`], [`Mark`], [`Alteration`], [`Act`], [`Touched`], [`Span`], [`Register`], [`Width`], [`Status`] and
//! [`Stop`] are the values that these take and return. [`USUAL_REDZONE`] and [`USUAL_VOLUME`] are Memcheck's settings of the heap. The
//! values for memory, traces, blocks and errors are in the crates `shadow_memory`, `call_stacks`, `guest_heap` and `error_events`. If
//! memory runs out, what consumes a machine drops it and returns `AllocError`; nothing else fails.
//!
//! # What a caller can rely on
//!
//! The contract of [`Machine::step`]. A machine shows a state, which is a value of `specs/` and no code (`Shows`). For each state that it
//! shows:
//!
//! - `shows`: the machine after the step shows `exec` of that state and the setup;
//! - `touched`: the returned spans are those that the step touches (`touched_of`): its code's, what it reads besides that, what it writes;
//! - `code`: its code's span has at most four bytes, from a multiple of 2 on;
//! - `raised`: the machine after the step says, by `has_raised`, whether the step's errors are more than those before it;
//! - `meter`: the meter has risen by one, up to the greatest `u64`;
//! - `unmoved`: if memory ran out, the meter is where it was.
//!
//! The calls between steps have the same form: `start` shows `start_state`, `mark` leads from a state to `marked`, `alter` to `altered`,
//! `poke` to `poked`, `share` to the same state, and each observer except `has_raised` returns a field of it. So a run of any length
//! is the definition `pre` or `post`, by as many calls. The laws let a caller replay less after an edit. A step is the same if the edit
//! changed only a word that it doesn't touch, input that it hasn't come to, or, if it is no heap call, the heap's options. A word that it
//! doesn't touch may as well be poked after it. A step of a halted machine need not be executed.
//!
//! # Where the definitions are
//!
//! They are in `specs/`, here from the outside in:
//!
//! - `Run`: the state at the start, marks, pokes, and the states before and after the alterations of each step. `Alterations`: what each of
//!   these does. `MarkedRun`: the run with only marks.
//! - `Exec`: one step (`exec`) and what it touches (`touched_of`, `touches`), in three parts: what the step does (`action_at`: it fetches the
//!   code at pc, calls a function by name, or neither), what it uses, and what it leaves. It depends on no other byte and no other part of
//!   the setup; the laws follow from this form.
//! - `Effects`, `Atomics`, `Controls` and `Calls`: what each class of instruction, each atomic instruction, each instruction of a control
//!   register and each call of the environment leaves. The crate `instructions` has the class of each row of the instruction tables, and
//!   what instructions compute.
//! - `HeapCalls`: `malloc`, `calloc`, `free` and `realloc` over the blocks of the crate `guest_heap`; `NamedCalls`: what a call of
//!   them by name does before and after. Which function begins at an address is `hook_at` of the crate `guest_elf`.
//! - `Errors`: what each test notes, with its note; `StackPointer`: what a move of the stack pointer makes inaccessible or undefined.
//! - `State`, `Registers`, `Spans`: what a state is, and how registers and ranges of addresses change.
//! - `Laws`: the laws of one step. `Fetches`: where a code that is fetched begins.
//! - `Differences`: that a machine shows the same as another but for some words.
//! - `Shows`: that a machine shows a state. `Loading`, `Sieve`, `Doing`, `Acting` and `DecodeCaches` are for this crate's proofs.
//!
//! Sources: RISC-V Unprivileged ISA 20191213, chapters 1, 2, 3, 7 to 10 and 16; RISC-V Privileged Architecture 20190608, chapters 2 and 3;
//! the Memcheck manual, chapter 4; Seward and Nethercote, "Using Valgrind to detect undefined value errors with bit-precision" (USENIX
//! 2005). The undefined bits of a result are those of the crate `definedness`, the instruction tables those of `instructions`, the image
//! that of `guest_elf`.
#![tactic(auto)]

mod cached_memory;
mod decode_cache;
mod decode_table;
mod environment_call;
mod fitting;
mod hooks;
mod input;
pub mod laws;
mod machine;
mod meter;
mod setup;

pub use hooks::Hooks;
pub use input::Input;
pub use instructions::{Code, Register, Width};
pub use machine::Machine;
pub use meter::Meter;
pub use run_values::{Act, Alteration, Mark, Span, Status, Stop};
pub use setup::{Setup, Touched, USUAL_REDZONE, USUAL_VOLUME};
