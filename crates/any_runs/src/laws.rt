//! Laws, each the contract of a function that does nothing.
ghost use Rattle.any_runs.specs.EchoRuns.{AnyInputBut, EchoRunsStand};
ghost use Rattle.any_runs.specs.Echoes.{EchoesStand, RowsKept};
ghost use Rattle.any_runs.specs.Inputs.{AnyInput, InputsStand};
ghost use Rattle.any_runs.specs.Secrets.{AnySecrets};
ghost use Rattle.any_runs.specs.Sharper.{ComputedSharper, StepsSharper};
ghost use Rattle.any_runs.specs.Stands.{RunsStand, StepsStand};

/// Fewer undefined bits in the operands give fewer in the result.
pub fn computed_sharper()
    ensures { ComputedSharper }
{}

/// A step that raises no use does the same with fewer undefined bits.
pub fn steps_sharper()
    ensures { StepsSharper }
{}

/// A step that raises no use stands for the steps of all states that its state stands for.
pub fn steps_stand(input: &[u8])
    ensures { StepsStand input.now }
{}

/// One run with undefined bits stands for all runs in which these bits are any.
pub fn runs_stand(input: &[u8])
    ensures { RunsStand input.now }
{}

/// One run with bytes of the input undefined stands for the runs of all inputs that differ in these bytes.
pub fn inputs_stand(input: &[u8], another: &[u8])
    ensures { InputsStand input.now another.now }
{}

/// A program's run with bytes of the input undefined stands for its runs with all inputs that differ in these bytes.
pub fn any_input(input: &[u8], another: &[u8])
    ensures { AnyInput input.now another.now }
{}

/// Only a write has an error of undefined bytes in its buffer.
pub fn rows_kept()
    ensures { RowsKept }
{}

/// A step that may write bytes that may be any stands for others, but for the content of the output.
pub fn echoes_stand(input: &[u8])
    ensures { EchoesStand input.now }
{}

/// One run with bytes of the input undefined, which may write them, stands for others, but for the content of the output.
pub fn echo_runs_stand(input: &[u8], another: &[u8])
    ensures { EchoRunsStand input.now another.now }
{}

/// A program's run with bytes of the input undefined, which may write them, stands for its runs with all inputs that differ in these
/// bytes, but for the content of the output.
pub fn any_input_but(input: &[u8], another: &[u8])
    ensures { AnyInputBut input.now another.now }
{}

/// A program's run with bytes of its input and its memory undefined, but for what is revealed, stands for all runs in which they are others.
pub fn any_secrets(input: &[u8], another: &[u8])
    ensures { AnySecrets input.now another.now }
{}
