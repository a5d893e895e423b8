//! The order of a command line.

/// An order: a command on a program, with an input and suppressions.
#[derive(Clone, Copy)]
pub struct Order<'a> {
    /// The program's file.
    pub file: &'a str,
    /// The file of the input, or none for an input of no bytes.
    pub input: Option<&'a str>,
    /// The file of suppressions.
    pub suppressions: Option<&'a str>,
    /// What the program's file is read for.
    pub profile: ProfileArgs<'a>,
    /// The command.
    pub task: Task<'a>,
}

/// What a program's file is read for, as it was given.
#[derive(Clone, Copy)]
pub struct ProfileArgs<'a> {
    /// The name of the instruction set.
    pub isa: &'a str,
    /// Where the heap's region begins.
    pub heap: &'a str,
    /// Where the stack's region begins and ends.
    pub stack: &'a str,
    /// The greatest number of bytes that one call moves, or none for the usual one.
    pub most_moved: Option<&'a str>,
    /// The greatest number of bytes of output, or none for the usual one.
    pub most_output: Option<&'a str>,
}

/// A command on a program.
#[derive(Clone, Copy)]
pub enum Task<'a> {
    /// What is done with one run, or in a session with it.
    Do(Action<'a>),
    /// Every edit, one at a time.
    Sweep(SweepArgs<'a>),
    /// The run itself, with its output and its exit status.
    Exec(ExecArgs<'a>),
}

/// What is done with a program whose files were read.
#[derive(Clone, Copy)]
pub enum Action<'a> {
    /// The report at a step is printed.
    Report(u32),
    /// A session is served.
    Session,
    /// A session is served whose run can be looked at, up to a greatest step if one was given.
    Look(Option<u32>),
    /// A session is served that can also be looked at, and in which inputs are tried, up to a greatest step if one was given.
    Tries(Option<u32>),
    /// The verdict up to a step is printed: whether the run is clean, or the same for every value of some bytes.
    Certify(CertifyArgs<'a>),
}

/// The arguments of a verdict, as they were given.
#[derive(Clone, Copy)]
pub struct CertifyArgs<'a> {
    /// The step, if one was given; else it is the greatest one.
    pub step: Option<u32>,
    /// Which bytes of the input may be any.
    pub any: Option<&'a str>,
    /// Which bytes of memory may be any.
    pub any_memory: Option<&'a str>,
    /// What may be known of them.
    pub reveal: Option<&'a str>,
}

/// The arguments that say which edits are tried, as they were given.
#[derive(Clone, Copy)]
pub struct SweepArgs<'a> {
    /// The step of the outcomes.
    pub step: u32,
    /// Which bytes of the input are edited.
    pub bytes: Option<&'a str>,
    /// Which values they get.
    pub byte_values: &'a str,
    /// Which words of the program are edited.
    pub words: Option<&'a str>,
    /// Which values they get.
    pub word_values: &'a str,
    /// At which steps faults strike.
    pub at: Option<&'a str>,
    /// By which fault models.
    pub faults: Option<&'a str>,
    /// To which addresses pc is limited there.
    pub code: Option<&'a str>,
    /// Which pairs of faults are tried, too.
    pub pairs: Option<&'a str>,
    /// Which part of the places is swept.
    pub part: &'a str,
    /// Whether an outcome has the number of bytes written.
    pub with_output: bool,
    /// Whether the table says what its runs have executed.
    pub with_sides: bool,
}

/// The arguments that say how a program is executed and what is said of it.
#[derive(Clone, Copy)]
pub struct ExecArgs<'a> {
    /// The last step.
    pub step: u32,
    /// The words that are written into the program before the run: `ADDR=WORD`, with commas between them.
    pub patches: Option<&'a str>,
    /// The file of the report, or none for standard error.
    pub report: Option<&'a str>,
    /// The exit status of a program that exits or rests, and has errors or leaks that count.
    pub error_exitcode: Option<u32>,
    /// The exit status of one that rests in a jump to itself.
    pub idle_exitcode: Option<u32>,
    /// The number of addresses of a trace.
    pub callers: u32,
    /// The number of inaccessible bytes beside each block of the heap.
    pub redzone: u32,
    /// The number of bytes of freed blocks that aren't used again yet.
    pub queue: u32,
    /// Which kinds of leak are listed.
    pub show: &'a str,
    /// Which kinds of leak count as errors.
    pub count: &'a str,
    /// Whether a report without errors, listed leaks and stops is left out.
    pub quiet: bool,
    /// Whether a run whose heap is unseen fails.
    pub require_heap: bool,
    /// Whether it doesn't, though an exit status is chosen for errors.
    pub no_require_heap: bool,
    /// Names of functions that aren't a heap's, with commas.
    pub not_heap: Option<&'a str>,
    /// The MiB of memory above which a run is ended; 0 for no limit.
    pub memory_limit: u32,
    /// Whether the last line on standard error is ended before a report that goes elsewhere.
    pub end_line: bool,
}
