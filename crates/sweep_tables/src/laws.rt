//! A law of a sweep's table. The law is the contract of a function that does nothing; a caller has it after the call.
ghost use Rattle.sweep_tables.specs.Laws.{TableIsOne};

/// Two texts that are the table of one case are equal.
pub fn table_is_one()
    ensures { TableIsOne }
{
    sweeps::laws::outcomes_are_one();
}
