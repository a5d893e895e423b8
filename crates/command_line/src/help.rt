//! The texts of help.

/// What the program is for.
pub(crate) const ABOUT: &str = "\
Finds memory errors in static RV32IM programs, and shows what an edit of the run would change.
Its source is proved: each report is that of one complete run of the edited program";

/// What `run` does.
pub(crate) const RUN: &str = "Prints the report of a program at a step";

/// What `session` does.
pub(crate) const SESSION: &str =
    "Answers lines of standard input that edit a run or ask for its report";

/// What `look` does.
pub(crate) const LOOK: &str =
    "Answers the lines of a session, and others that show or alter registers and memory";

/// What `tries` does.
pub(crate) const TRIES: &str =
    "Answers the lines of `look`, and others that try inputs and report what is new in their runs";

/// What `sweep` does.
pub(crate) const SWEEP: &str =
    "Tries every edit of an input or of code, one at a time, and writes a table of the outcomes";

/// What `certify` does.
pub(crate) const CERTIFY: &str =
    "Says whether what undefined or inaccessible memory holds, or some bytes, can change the run";

/// What `exec` does.
pub(crate) const EXEC: &str =
    "Runs a program as a test: its output and its exit status, and a report of its errors";

/// A text with the end of the help of each command: statuses, with these for success and these last, and refusals.
macro_rules! with_statuses {
    ($text:literal, $done:literal, $last:literal) => {
        concat!(
            $text,
            "
Exit status:
  0  ",
            $done,
            ", or help or the version was asked for
  1  a file or standard input can't be read, or standard output can't be written
  2  a fault of the command line
  3  the program, the suppressions, the input, or what is to be edited is refused, as below
  4  out of memory
",
            $last,
            "
`replaycheck: image refused N`, by the least N that holds:
  20 no ELF file, 21 not of 32 bits, 22 not little-endian, 23 bad version, 24 no executable,
  25 not RISC-V, 26 bad table, 27 asks for an interpreter, 28 bad segment, 29 overlap,
  30 too large (more than 16777216 bytes), 31 bad symbols
`replaycheck: suppressions refused N`:
  13 at line L: a fault of the text, 15: more than 1048576 bytes
`replaycheck: input refused 14`:
  more than 1048576 bytes"
        )
    };
}

/// The same, for a command that succeeds if it has written what it was asked for.
macro_rules! with_refusals {
    ($text:literal) => {
        with_statuses!($text, "the report, the replies or the table was written", "")
    };
}

/// The end of the help of `run`.
pub(crate) const AFTER_RUN: &str = with_refusals!(
    "\
Example, the report after 5000 steps:
  replaycheck run program.elf --input bytes --supp known.supp --step 5000
"
);

/// The end of the help of `session`: its lines, and the numbers of its refusals.
pub(crate) const AFTER_SESSION: &str = with_refusals!(
    "\
Lines, with one space between fields; a number is decimal, or hexadecimal after 0x:
  goto N                   chooses step N: 0 to 4194304, 0 at first
  report                   answers the report at the chosen step
  input OFFSET BYTE        replaces a byte of the input
  input append BYTE        appends a byte to the input
  input cut                removes the last byte of the input
  patch ADDR WORD          replaces a loaded word, the lowest byte first
  patch16 ADDR HALF        with --isa rv32imc or rv32imac: replaces two loaded bytes likewise
  mark STEP ADDR LEN KIND  makes a range defined, undefined or noaccess just before a step
  unmark I                 removes mark I, counted from 0; later ones move down
  supp on I, supp off I    switches suppression I, counted from 0
  supp add KIND WORDS..    adds one: its kind, its extra line (for Param and Leak), its frames
  option callers N         shows and groups by N addresses of a trace: 1 to 24, 12 at first
  option redzone N         inaccessible bytes beside each block: 0 to 4096, 16 at first
  option queue N           bytes of freed blocks that stay: 0 to 1000000000, 20000000 at first
  option show LIST         leak kinds that are shown, between commas: definite, indirect, possible,
                           reachable, all, none; definite,possible at first
  worked                   answers how many steps were executed so far

Each is answered `ok`, the report, `worked N` or `refused N`. A refused line changes nothing but
the count of lines:
  1   out of memory
  2   no command, or a field that is missing, too many, empty or of the wrong form
  3   no such byte of the input
  4   no word, or no half, of the loaded program
  5   a step above 4194304
  6   a mark of 0 or of more than 1048576 bytes, or one that ends above 2^32
  7   no such mark
  8   no such suppression
  9   an unknown option, or a value out of range
  10  there are 4096 marks already
  11  a line of more than 4096 bytes
  12  the 100001st line; it ends the session
  13  a suppression that can't be read
  14  an input of 1048576 bytes gets no more

Example, what another first byte of the input would have changed:
  printf 'goto 5000\\nreport\\ninput 0 8\\nreport\\n' |
    replaycheck session program.elf --input bytes
"
);

/// The end of the help of `look`: the lines that it has besides those of a session.
pub(crate) const AFTER_LOOK: &str = with_refusals!(
    "\
The lines of a session, which `replaycheck session --help` lists, and these, which change nothing
and don't count. Each is answered for the chosen step of the run with all edits:
  look registers                the state as in a report, and of x1 to x31 value and undefined bits
  look controls                 with --isa rv32imc or rv32imac, of mstatus and the other control
                                registers of machine mode value and undefined bits; else `none`
  look memory ADDR LEN          LEN bytes, up to 4096, and in a second line their undefined bits;
                                __ below a byte that may not be accessed
  look output FROM LEN          of the program's output up to LEN bytes, up to 4096, from position
                                FROM on: those that there are
  look sides ADDR LEN           of each instruction in LEN bytes, up to 4096, a digit: 0, it wasn't
                                executed; 1, it was, and the run always continued after it; 2,
                                always elsewhere; 3, both
  look input                    the number of bytes of the input that were read, its length, and
                                `yes` if a read has asked for more than were left, else `no`
  look stack                    pc, and the sites of the calls that the program is in, newest first
  look blocks ADDR              a line for each block of the heap from ADDR on, up to 64:
                                its start, its size, `live` and where it was allocated, or `freed`
                                and where that was; then `next ADDR` or `end`
  look calls FROM END           a line for each of the steps from FROM on, below END and below the
                                chosen one, that calls or returns, calls the heap, reads input or
                                writes output, up to 1024; then `next STEP` or `end`
  look certify                  the line of `replaycheck certify`; here the marks count, too
  look next KIND ADDR LEN END   the first step, from the chosen one on and below END, that does it
  look last KIND ADDR LEN FROM  the last step, before the chosen one and not before FROM, that does

KIND is what a step does with the LEN bytes at ADDR: `run` where its pc is among them and the
program runs, `error` where it then raises an error, `read` where it reads some of them beside its
own word, `write` where it writes some, `shadow` where it changes the undefined bits of some or
whether they may be accessed. A mark is no step.
The answer is `step N`, or `none`. Refusals, besides out of memory (1):
  2   no look, or a field that is missing, too many, empty or of the wrong form
  5   a step, END or FROM, above 4194304
  6   a range of 0 bytes, one that ends above 2^32, or above 4096 bytes for memory, output, sides
      or `shadow`

These lines alter the machine just before step STEP, where it runs. They count as lines, and
`unmark I` takes one back: alterations and marks are one list, applied in order.
  set STEP REGISTER VALUE [UNDEF]  a register, x1 to x31; the bits of UNDEF are undefined
  set STEP pc VALUE                the address of the next instruction
  flip STEP REGISTER|pc MASK       turns these bits; undefined bits stay undefined
  flip STEP ADDR MASK              turns these bits of four bytes, the lowest byte first: a MASK up
                                   to 255 turns the byte at ADDR only
  write STEP ADDR LEN VALUE        writes LEN bytes, 1, 2 or 4, the lowest first; they are defined
                                   where they are accessible
  skip STEP                        leaves out an instruction: no step, but counters count it
Such a line is answered `ok`, or refused: 2 as above, 5 for a STEP above 4194304, 6 for another
LEN, bytes that end above 2^32 or a VALUE too wide for LEN, 10 for more than 4096 in the list.

These lines give the input other bytes, two hexadecimal digits each, and count as lines:
  bytes A HEX                      replaces those from offset A on
  bytes is [HEX]                   makes these the whole input
Such a line is answered `ok`, or refused: 2 as above, 3 for bytes beyond the input.

Example, the last write of a word before the first 5000 steps are over:
  printf 'goto 5000\\nlook last write 0x20010 4 0\\n' | replaycheck look program.elf
"
);

/// The end of the help of `tries`: the lines that it has besides those of `look`.
pub(crate) const AFTER_TRIES: &str = with_refusals!(
    "\
The lines of `replaycheck session` and `replaycheck look`, whose help lists them, and these. Those
that begin with `try`, `tries` and `differs` edit nothing and don't count. Each is answered for the
run of another input, with all other edits, up to the chosen step. HEX is two hexadecimal digits
each byte:
  try [HEX]                 tries these bytes as the whole input
  try A HEX                 tries the input with its bytes from offset A on replaced by these
  tries A..B VALUES         tries the bytes from offset A up to B, which isn't one of them, each
                            with the values that `sweep --values` names: all, flips or edges
  differs [HEX]             lists the compares in which the run of these bytes differs from the run
                            of the session, which has all edits and no other input
  differs A HEX             lists them for the input with its bytes from offset A on replaced
  take                      makes the input of the last try the session's, as `bytes is HEX` or
                            `bytes A HEX` does. No line may be between them but lines that begin
                            with `try`, `differs` and `look`

The reply to `try` is this line, after the outcome if no earlier try had the same one:
  tried K new N again M     outcome K; N sides that no earlier try had; M sides that the run has at
                            least twice, and that no earlier try had twice
  outcome K                 an outcome, numbered from 0, and its lines as in a table of
                            `replaycheck sweep`
The reply to `tries` is each line `try A HEX` that does something new, with its reply, and `end`.
A side is an instruction with whether the run continued after it or elsewhere. Sides are told of
the segment in which the program begins, at most of its first 4 MiB in the file.

The reply to `differs` is a line for each compare that differs, and then `end`:
  STEP PC A B A' B'         the step in the session's run, the address, the operands there, and
                            the operands in the other run
Compares are the conditional branches, slt, slti, sltu and sltiu. Each run's first 65536, from the
last step on at which the other input doesn't show, are paired in order, up to the first pair at
two addresses.

Refusals of these lines, besides out of memory (1):
  2   a field that is missing, too many or of the wrong form; `take` without a try
  3   bytes beyond the input
  14  an input of more than 1048576 bytes

Example, two inputs, and the compares that depend on the first byte:
  printf 'goto 5000\\ntry 00\\ntry ff\\ndiffers 0 ff\\n' |
    replaycheck tries program.elf --input bytes
"
);

/// The end of the help of `sweep`: its table.
pub(crate) const AFTER_SWEEP: &str = with_refusals!(
    "\
With none of --bytes, --words and --at, all bytes of the input are edited; `--input -` is standard
input. Numbers are decimal, or hexadecimal after 0x. The places are the bytes, then the words, each
at a multiple of 4, or with --isa rv32imc or rv32imac the instructions of 16 and 32 bits, then the
steps; a table has one part of them. Bytes and words get these values, except their own:
  all      each other byte
  flips    each value that differs in one bit
  edges    0, 1, 0x7f, 0x80, 0xff, its own plus 1 and minus 1
  skip     the instruction that does nothing: 0x00000013, or of 16 bits 0x0001
  N,N,..   these numbers, each at most once; an instruction of 16 bits gets none of them

At each step that the unedited run executes, one fault is tried at a time, of each model in the list:
  skip       the instruction is left out
  registers  one bit of one of x1 to x31 is turned, just before the step
  pc         one bit of pc
  words      one bit of the instruction at pc, for this step only
  memory     one bit of a byte that this step or a later one reads before it is overwritten
  zero, ones one of x1 to x31 is set to 0, or to 0xffffffff
`--pairs skip` also leaves out two instructions, the second at a later step of --at. --at and
--faults need each other, and --code-range and --pairs need both. Steps at which a function of the
heap is called by name are left out. --sides goes with edits of bytes only.

The table, which `replaycheck explore` reads:
  sweep 1                   its format, 2 with steps, with `sides yes`, or with one of the lines
                            `isa NAME`, `heap-region BEGIN` and `stack-region A..B`, which follow
                            where these aren't the usual; then the files' lengths and SHA-256, and
                            what is asked
  outcome K                 an outcome, just before the first row that has it; its lines follow: the
                            state, each error and each shown leak with its trace
  unedited 0                the run with no edit
  input OFFSET BYTE K       an edit, as a line of a session makes it, and its outcome
  patch ADDR WORD K, patch16 ADDR HALF K
  skip STEP K               a fault, as `replaycheck look` makes it: also flip STEP xR MASK, flip STEP
                            pc MASK, flip STEP ADDR MASK, set STEP xR VALUE; two lines with `; `
  tally K COUNT             how many edits have an outcome
  sides ADDR DIGITS         with --sides, for up to 64 instructions from ADDR on, whether the unedited
                            run or an edited one continued after it (1), went elsewhere (2), both
                            (3), or none reached it (0); a line of zeros is left out
  end EDITS OUTCOMES STEPS  a table without this line isn't whole

Three more refusals:
  `replaycheck: bytes refused 3`: a range that isn't inside the input, or an input of no bytes
  `replaycheck: words refused 4`: no word, or no instruction, of the range is loaded
  `replaycheck: steps refused 5`: a range that isn't below --step

Example, each other value of the first four bytes:
  replaycheck sweep program.elf --input bytes --bytes 0..3
and each instruction of a function left out once:
  replaycheck sweep program.elf --step 9000 --at 0.. --faults skip --code-range 0x10200..0x1023f
"
);

/// The end of the help of `certify`: the meaning of its line.
pub(crate) const AFTER_CERTIFY: &str = with_statuses!(
    "\
Prints one line on the run up to the step. Where it is
  clean to step N: ..
nothing that uninitialised, freed or unmapped memory holds, at power-on or put there between any
two steps, changes the run: its status, output, errors, heap and reports are the same. The run has
ended by step N, or rests in a jump to itself. If it continues after step N, it is clean only up to
there, and the line is
  clean up to step N: .. the run goes on
Else it is
  not clean: first use at step N: ..
with the first error that reads inaccessible bytes or uses undefined ones, as a report names it,
and its trace. Invalid writes, bad frees and jumps are no uses. Suppressions don't count here.
Other inputs, later steps, devices and timing are not part of what the line says.

With --any or --any-memory, where the run is clean, the line says whether it is the same for every
value of these bytes: the same instructions at the same steps, the same addresses, status and number
of bytes of output, and the same errors but for writes of uninitialised bytes. Leaks, what is written
and the time of an instruction are not part of it. Else the line is
  not the same for any ..: ..
with the first step that may depend on these bytes: a use of them, or a stack pointer that they change;
or with a byte that was chosen and may not be accessed. A program may behave the same even so. What
--reveal names is taken as known: the line is about those values that leave it the same, and defined.

Examples:
  replaycheck certify program.elf --input bytes --step 5000
  replaycheck certify program.elf --input key --any 0..31
",
    "the run is clean, or the same; one that continues after the step only if --step was given",
    "  5  the run isn't clean, or may not be the same, or it continues after step 4194304 and --step
     wasn't given
"
);

/// What ends the help of `exec`.
pub(crate) const AFTER_EXEC: &str = "\
What the program writes to descriptor 1 goes to standard output as it is written, what it writes to
descriptor 2 to standard error. The report at the last step follows there. A line names each call
that isn't known, whose result is -ENOSYS. Without --input the program reads standard input, which is
only read when the program asks for more than it has.

A read or a write moves as many bytes as it asks for, but those after its first 4096 only up to the
first that may not be accessed. Other commands move at most 4096 and have room for 65536 bytes of
output; with --most-moved and --most-output they repeat a run of `exec`. Where that matters, a line
says how, unless --quiet is given.

Every 65536 steps x2 is looked at: where it is at most 64 MiB below the stack's region, but in no
loaded range and not in the heap's region, the stack has overflowed, and the run ends there. It also
ends where it needs more memory than --memory-limit: 5 kB for each page of the guest that was written,
and 1.5 kB for each block of the heap.

Errors of the heap can't be found if the file has no symbols and the run calls no heap, or if blocks
come from functions that aren't mapped to malloc. With --error-exitcode that is a failure, of which
a line names the functions: those that real-time systems have, such as pvPortMalloc and k_malloc,
and, where no function is named malloc, free, calloc or realloc, those with alloc in their names.
`replaycheck adopt` maps them; --not-heap says which are none, and --no-require-heap lets all pass.

Example, as the command that runs a test:
  replaycheck exec --quiet --error-exitcode 9 test.elf

Exit status:
  N    the program's, when it exits
  N    of --error-exitcode, when it exits or rests in a jump to itself, and has errors or leaks that
       count, or errors of its heap can't be found
  132, 133, 135, 139
       it stopped: illegal instruction, EBREAK, misaligned address, jump to no memory; 139 also
       where the stack overflows
  124  it still runs at the last step; N of --idle-exitcode if it rests in a jump to itself
  123  it would be 0, but a write found no room in the bytes of --most-output
  122  it needs more memory than --memory-limit
  125  a fault of the command line, out of memory, or the output or report can't be written
  126  the program, the suppressions, the input or a patch is refused; with --require-heap and
       without --error-exitcode, errors of the heap can't be found
  127  a file can't be read";
