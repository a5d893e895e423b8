//! A session whose run can be looked at and altered at a step: its lines, others that show registers, memory, output and input, and which
//! step runs, reads or writes something, and others that alter registers, memory or the next address just before a step.
//!
//! | Item | What it is |
//! |---|---|
//! | [`serve`] | reads lines from any reader and writes the replies to any writer, or stops with a fault |
//!
//! # The lines
//!
//! Those of a session (the crate `replay_session`), and these. Lines that look are for the chosen step of the run with all edits. They
//! change nothing and aren't counted.
//!
//! | Line | The reply |
//! |---|---|
//! | `look registers` | the line of a report that says whether the program runs; the value and the undefined bits of x1 to x31, one line each |
//! | `look controls` | the name, the value and the undefined bits of each control register that is shown, one line each; `none` if there is none |
//! | `look memory ADDR LEN` | `bytes` and 1 to 4,096 bytes; `undef` and below each its undefined bits, `__` where there is no access |
//! | `look output FROM LEN` | `bytes` and 1 to 4,096 bytes of the output from position FROM on, or those that there are |
//! | `look sides ADDR LEN` | `sides` and a digit for each place in these 1 to 4,096 bytes, the first at ADDR, as far apart as the shortest instructions are long: what the run up to the chosen step has done with the instruction there. 0 nothing, 1 executed it and continued after it, 2 executed it and gone elsewhere or ended there, 3 both |
//! | `look input` | `input P L`, where P of the L bytes of the input were read, and `yes` if a read has asked for more than were left, else `no` |
//! | `look next KIND ADDR LEN END` | `step N`, the first from the chosen one on and below END that does it, or `none` |
//! | `look last KIND ADDR LEN FROM` | `step N`, the last before the chosen one and from FROM on that does it, or `none` |
//! | `look stack` | `stack PC SITE ..`: pc, and the address of each call that the program is in, newest first, at most 256 |
//! | `look blocks ADDR` | the blocks of the heap that begin at ADDR or above, in order, those freed that aren't forgotten yet too: `block START SIZE live` or `freed` and up to three addresses of the trace, a line each. After 64 of them `next ADDR`, the start of the next one, else `end` |
//! | `look calls FROM END` | what happens in the steps from FROM on, below END and below the chosen one, a line each (see below). After 1,024 of these `next STEP`, the step after the last, else `end` |
//! | `look certify` | `clean to step N: ..`, `clean up to step N: .. the run goes on`, or `not clean: ..` with the first mark or error that is in the way |
//!
//! What `look calls` lists of a step is the first of these that applies:
//!
//! | Line | The step |
//! |---|---|
//! | `STEP heap DEPTH` | is a heap call |
//! | `STEP call TO DEPTH` | calls what begins at TO, and there are more frames after it than before. A call of a function of the heap that is called by name is none: the next step is that function, and returns at once |
//! | `STEP return TO DEPTH` | goes on at TO, with fewer frames than before; there may be several fewer |
//! | `STEP input COUNT` | reads COUNT bytes of the input |
//! | `STEP output COUNT` | writes COUNT bytes |
//!
//! DEPTH is the number of frames after the step: the stack of calls has 256 at most, so a call beyond these is none. The trace of a block
//! is the one that Memcheck's messages show first: of a live block where it was allocated, of a freed one where it was freed.
//!
//! A control register is shown if it is one of machine mode that any hart has, such as `mstatus`, or a counter: 24 in order of their numbers.
//! An instruction set without control registers has none.
//!
//! KIND: `run`, the program runs and pc is in the range; `read`, a byte of it is read, besides the step's own word; `write`, one is
//! written; `shadow`, the step changes the undefined bits of one, or whether it may be accessed, from its state after its marks to the one
//! before the marks of the next step; `error`, the program raises an error with pc in the range.
//! A line is rejected with the first of these numbers that applies: 2 for no look, 5 for a step, END or FROM, above 4,194,304, 6 for a range of no
//! bytes, one that ends above 2^32, or, of memory, of the output, of sides or for `shadow`, one of more than 4,096 bytes. 1 means out of memory. A line of more than
//! 4,096 bytes is none of these, nor is one after 100,000 lines of a session: the reply to it is that of a session.
//!
//! Lines that alter the machine just before step STEP are edits: each counts as a line, and `unmark I` takes it back, as its alteration is
//! one of the marks. The reply is `ok`.
//!
//! | Line | What it does to a machine that runs |
//! |---|---|
//! | `set STEP REGISTER VALUE` | gives the register a value with no undefined bits: who sets it knows it |
//! | `set STEP REGISTER VALUE UNDEF` | the same, with these bits undefined |
//! | `set STEP pc VALUE` | sets pc |
//! | `flip STEP REGISTER MASK`, `flip STEP pc MASK` | turns these bits; undefined ones stay undefined |
//! | `flip STEP ADDR MASK` | turns these bits of four bytes, the lowest byte first: a MASK up to 255 turns the byte at ADDR only. What is known of them stays |
//! | `write STEP ADDR LEN VALUE` | writes LEN bytes, 1, 2 or 4, the lowest first; they are defined where they are accessible, and elsewhere stay inaccessible |
//! | `skip STEP` | leaves out an instruction: pc advances by the instruction's length. It is no step, but counters count it |
//!
//! REGISTER is `x1` to `x31`. Alterations and marks of a step are applied in the order of their lines. A machine that has exited or stopped
//! is altered by marks only. An alteration is no step: it raises no error, and no search finds it. A line is rejected with the first of these
//! numbers that applies: 12 and 11 as a line of a session; 2 for a field that is missing, too many or of another form; 5 for STEP above
//! 4,194,304; 6 for a LEN other than 1, 2 and 4, bytes that end above 2^32, or a VALUE too wide for LEN; 10 if there are 4,096 marks already.
//!
//! Lines that give the input bytes are edits, too, with the reply `ok`. HEX is two hexadecimal digits a byte, in either case, and at least
//! one byte.
//!
//! | Line | What it does |
//! |---|---|
//! | `bytes A HEX` | replaces the bytes of the input from offset A on |
//! | `bytes is HEX`, `bytes is` | makes these bytes the whole input, or makes it empty |
//!
//! A line is rejected with the first of these numbers that applies: 12 and 11 as a line of a session; 2 for a field that is missing, too
//! many or of another form; 3 for bytes beyond the input; 14 for an input of more than 1,048,576 bytes; 1 if memory runs out.
//!
//! # What a caller can rely on
//!
//! [`serve`]: what was written is the replies to the lines of all bytes read (`ViewsLines`). The reply to a line that looks is what holds
//! at the chosen step of **one run from step zero of the edited program** (`Tells`), and the line leaves the session's turn as it is. The
//! work is moved as by a report there, except that a verdict executes further steps, that a look at sides executes its steps beside the
//! held machines, and that a look at calls moves it as by a report at the end of its steps. The reply to any other line is that of a session (`RepliesAs`) to the command as which it is read (`read_as`): a line that
//! alters is the edit that appends its alteration to the marks, and one that gives the input bytes is the edit that puts them there.
//!
//! In `specs/`: `Views`, the reply to a look and to any other line, over `Looks`, `Texts`, `Controls`, `Lists`, `Alterations` and `Inputs` of the
//! crate `look_lines`.
#![tactic(auto)]

mod serving;
mod viewer;

pub use serving::serve;
pub use viewer::Viewer;
