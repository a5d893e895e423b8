//! Laws that join a sweep to a session. A law is the contract of a function that does nothing; a caller has it after the call.
ghost use Rattle.driver.specs.Laws.{FaultsAreLines, PairsAreLines, RowsAreLines};

/// The line of a sweep's row on a byte, a word or a half, as a session reads it, applies the row's edit. So the state of its outcome is that of the
/// session whose only accepted line it is, at the same step.
pub fn rows_are_lines()
    ensures { RowsAreLines }
{}

/// The line of a fault, as a session whose run can be looked at reads it, applies the row's edit; and the two lines of a row with two of them
/// apply both. So the state of the row's outcome is that of the session that accepts only these lines, at the same step.
pub fn faults_are_lines()
    ensures faults { FaultsAreLines }
    ensures pairs { PairsAreLines }
{}
