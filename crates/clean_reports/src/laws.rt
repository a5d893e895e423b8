//! Laws of whole runs. Each is the contract of a function that does nothing. A caller has the law after the call. If a law is about an
//! input or a file, the function takes its bytes, and the law holds for each slice.
ghost use Rattle.std.specs.Prelude.{◌^◌, ◌<◌, All};
ghost use Rattle.clean_reports.specs.Laws.{AccessesAreLive, CleanReports, CleanRuns, DisturbedRunsExist, HeapStaysClosed, HeapStaysOpen, PowerOn, ProgramsAreBytes, ReportsAgree, RunsAgree, StepsAgree};

/// From states that agree where they are defined, a step that raises no use leads to states that agree where they are defined.
pub fn steps_agree(input: &[u8])
    ensures { StepsAgree input.now }
{}

/// A run without uses agrees with each disturbed run of it where it is defined, whatever undefined and inaccessible values change to
/// between its steps.
pub fn runs_agree(input: &[u8])
    ensures { RunsAgree input.now }
{}

/// States that agree where they are defined have the same reports.
pub fn reports_agree()
    ensures { ReportsAgree }
{}

/// A program's run without uses agrees with each disturbed run: nothing that undefined or inaccessible memory holds has an influence on it.
pub fn clean_runs(input: &[u8])
    ensures { CleanRuns input.now }
{}

/// Nothing that undefined or inaccessible memory holds at power-on has an influence on a program's run without uses.
pub fn power_on(input: &[u8])
    ensures { PowerOn input.now }
{}

/// Each report of a run without uses is the report of each disturbed run.
pub fn clean_reports(input: &[u8])
    ensures { CleanReports input.now }
{}

/// There are disturbed runs: the run itself, and one for any noise in inaccessible memory.
pub fn disturbed_runs_exist(input: &[u8])
    ensures { DisturbedRunsExist input.now }
{}

/// An input is bytes, as [`crate::certify`] requires.
pub fn inputs_are_bytes(input: &[u8])
    ensures { All (λ byte. byte < 2 ^ 8) input.now }
{}

/// What a program's file loads is bytes, as the law on disturbed runs requires.
pub fn programs_are_bytes(file: &[u8])
    ensures { ProgramsAreBytes file.now }
{}

/// Each byte of a live block may be accessed.
pub fn heap_stays_open()
    ensures { HeapStaysOpen }
{}

/// No byte of the heap region may be accessed except those of live blocks.
pub fn heap_stays_closed()
    ensures { HeapStaysClosed }
{}

/// In the heap region, a load or a store that raises no error accesses only bytes of live blocks.
pub fn accesses_are_live()
    ensures { AccessesAreLive }
{}
