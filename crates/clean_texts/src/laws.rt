//! Laws of texts. Each is the contract of a function that does nothing. A caller has the law after the call. If a law is about an input,
//! the function takes its bytes, and the law holds for each slice.
ghost use Rattle.clean_texts.specs.Laws.{CleanOutlines, CleanTexts, NoErrorsMeansNone, PrintedTexts, RunTexts};

/// A report ends with the line of no errors exactly if the state has no error, suppressed or not.
pub fn no_errors_means_none()
    ensures { NoErrorsMeansNone }
{}

/// A report that ends with the line of no errors certifies its run, if no mark is in the way: each disturbed run agrees with it up to the
/// step, and has the same reports.
pub fn clean_texts(input: &[u8])
    ensures { CleanTexts input.now }
{}

/// A report of a session that ends with the line of no errors certifies the run, if no mark of the session's scenario is in the way.
pub fn printed_texts(input: &[u8])
    ensures { PrintedTexts input.now }
{}

/// A report that `replaycheck run` prints and that ends with the line of no errors certifies the run, which has no marks.
pub fn run_texts(input: &[u8])
    ensures { RunTexts input.now }
{}

/// If an outline without suppressions has no line that names an error, it is the outline of a state without errors.
pub fn clean_outlines()
    ensures { CleanOutlines }
{}
