//! What a report without errors guarantees, known only from its text.
//!
//! A reader who has only the text of a report reads its last line. If it says `ERROR SUMMARY: 0 errors from 0 contexts (suppressed: 0 from
//! 0)`, the run has raised no error, so what [`clean_reports`] proves of clean runs holds for this run.
//!
//! | Call | What it does |
//! |---|---|
//! | [`laws::no_errors_means_none`] | does nothing; its contract says that a report ends with this line exactly if the state has no error |
//! | [`laws::clean_texts`] | likewise: a run with such a report is certified |
//! | [`laws::printed_texts`], [`laws::run_texts`] | likewise, for the reports that a session and `replaycheck run` print |
//! | [`laws::clean_outlines`] | likewise: an outline without suppressions and without the line of an error is that of a state without errors |
//!
//! # Where the definitions are
//!
//! They are in `specs/`, here in the order to read them: `Texts`, what a reader sees in a text; `Laws`.
#![tactic(auto)]

pub mod laws;
