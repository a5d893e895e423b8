//! What a line asks for.
use crate::edit::Edit;

/// A command of a session.
#[derive(Drop)]
pub enum Command {
    /// Chooses a step.
    Goto(u32),
    /// Asks for the report at the chosen step.
    Report,
    /// Edits the scenario.
    Edit(Edit),
    /// Asks for the number of steps executed so far.
    Worked,
}
