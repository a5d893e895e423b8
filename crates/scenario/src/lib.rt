//! A run as a user has set it up, as one value; each edit of it, as one value; and the report of it by one run from step zero.
//!
//! A [`Scenario`] is a program with the words and halves that were written into it, its input and the heap's settings, marks, suppressions with
//! their switches, options of the report, and the chosen step. An [`Edit`] changes one of them.
//!
//! # Public items
//!
//! | Call | What it does |
//! |---|---|
//! | [`Scenario::begin`], [`Scenario::begin_within`] | return the scenario of a program with an input and suppressions, without edits, at step 0, with the usual greatest step or another one |
//! | [`Scenario::choose`] | chooses a step |
//! | [`Scenario::refusal`] | returns why an edit is rejected, if it is |
//! | [`Scenario::effect`] | returns where an edit shows in the run |
//! | [`Scenario::edit`] | applies an edit that isn't rejected |
//! | [`Scenario::drop_word`] | removes the word or half that was written last |
//! | [`Scenario::give`] | replaces the input |
//! | [`Scenario::start`] | returns the machine before step 0 |
//! | [`Scenario::report`] | appends the report at the chosen step, by one run from step zero |
//! | [`Scenario::render`] | appends the report of a machine that is at the chosen step already |
//! | [`Scenario::outline`] | returns the outline of such a machine |
//! | [`ScenarioRef::report`] | appends the report of a scenario with borrowed parts, by one run from step zero |
//! | [`Scenario::image`], [`Scenario::setup`], [`Scenario::input`], [`Scenario::marks`], [`Scenario::suppressions`], [`Scenario::options`], [`Scenario::step`] | return its parts |
//! | [`setup_with`] | returns a setup: an input, Memcheck's settings of the heap, and the functions of the heap that a program has by name |
//! | [`laws::edits_follow`] | does nothing; its contract says that each edit leads from run to run by its effect |
//! | [`laws::edits_go_back`] | does nothing; its contract says that what takes an edit back leaves the scenario as it was |
//!
//! # What a caller can rely on
//!
//! Contracts see a scenario as a record (`Scenario` in `specs/`). A row of one table says all about an edit (`row` in `specs/Edits`): why
//! it is rejected, what it leaves, where it shows, whether memory may run out, and what takes it back. The methods return what the row
//! says. If memory runs out, an edit leaves the scenario as it was.
//!
//! A text is the report of a scenario (`IsReportOf`) if it is the report of the state at the chosen step of one run from step zero, with
//! the words and halves written in order. The outline (`IsOutlineOf`) is defined likewise.
//!
//! # Where the definitions are
//!
//! In `specs/`: `Scenario` (the record, its run, its report and its outline), `Edits` (the table and its laws), `Limits`, `Setups`.
#![tactic(auto)]

mod edits;
pub mod laws;
mod lent;
mod limits;
mod scenario;
mod setups;
mod written;

pub use commands::{Edit, Refusal};
pub use lent::ScenarioRef;
pub use limits::{FURTHEST_STEP, LONGEST_INPUT, MOST_STEPS, limit_for};
pub use scenario::Scenario;
pub use setups::setup_with;
pub use written::Written;
