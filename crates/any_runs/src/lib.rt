//! One run stands for many: what a run with undefined bits does, each run does in which these bits are any.
//!
//! Bytes of a program's input, or of its memory, are made undefined. If the run raises no *use* of them, and its stack pointer is defined
//! before and after each step, then for every value of these bytes the run goes the same way: the same instructions at the same steps, the
//! same addresses, the same status, errors, calls and blocks, and as many bytes of output. For a key that is constant time, but for what an
//! instruction's time owes to its operands; for a payload it is one run for all of its values.
//!
//! | Call | What it does |
//! |---|---|
//! | [`laws::any_secrets`] | does nothing; its contract is the theorem on a program: bytes of input and memory that may be any, and what is revealed of them |
//! | [`laws::any_input`], [`laws::any_input_but`] | likewise, for bytes of the input; and where they may be written to the output, whose content differs then |
//! | [`laws::inputs_stand`], [`laws::echo_runs_stand`], [`laws::runs_stand`] | likewise, for runs from any states that stand for others, with changes before steps |
//! | [`laws::steps_stand`], [`laws::echoes_stand`] | likewise, for a step |
//! | [`laws::steps_sharper`], [`laws::computed_sharper`], [`laws::rows_kept`] | likewise: fewer undefined bits before a step or a computation give fewer after it; only `write` raises an error of undefined bytes in its buffer |
//!
//! # What a caller can rely on
//!
//! - [`laws::any_secrets`]: a run that is fit (`IsSecretFit`) stands for each other run (`IsAnother`) at each step up to the last (`IsSame`).
//!   Leaks are not part of it: an undefined word is no pointer to a block, and a defined one may be.
//!
//! # Where the definitions are
//!
//! They are in `specs/`, here in the order to read them: `Sharper`, the same values with fewer undefined bits; `Stands`, one state that
//! stands for others; `Inputs`, bytes of the input that are undefined as soon as they are read; `Echoes` and `EchoRuns`, where such bytes
//! may be written; `Secrets`, the theorem on a program.
//!
//! Sources: Seward and Nethercote, "Using Valgrind to detect undefined value errors with bit-precision" (USENIX 2005), section 2, for what
//! an undefined bit is; Langley, "ctgrind" (2010), for the use of undefined bits as secrets.
#![tactic(auto)]

pub mod laws;
