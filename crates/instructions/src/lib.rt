//! What the code of an instruction means: its [`Instruction`], by the row of the instruction table, and what instructions compute from
//! numbers some of whose bits are undefined.
//!
//! | Call | What it returns |
//! |---|---|
//! | [`row_of`], [`row_of_half`] | the instruction of a word, of RV32IM or of an extension; of a half of RV32C; if it is one |
//! | [`row_of_code`], [`Code::len`] | the instruction of a [`Code`], a word or a half; its number of bytes |
//! | [`computed`] | the result of an [`Operation`], with its undefined bits |
//! | [`updated`] | what an atomic memory operation stores, by its [`Update`], with its undefined bits |
//! | [`replaced`], [`ControlAccess::writes`] | what an instruction stores in a control register, with its undefined bits; whether it does |
//! | [`passes`], [`is_undecided`] | whether a branch is taken, by its [`Comparison`]; whether that depends on undefined bits |
//! | [`extended`] | what a load puts in a register, by its [`Width`] |
//! | [`StackHint::of_jal`], [`StackHint::of_jalr`] | what a jump does to the stack of calls |
//! | [`Register::new`], [`Register::number`] | the register of a number below 32, and its number |
//!
//! In `specs/`: `Instructions` (the class of each row of the tables), `Codes` (words and halves), `Alu` (values and undefined bits),
//! `Atomics` (what atomic memory operations store), `Controls` (the same of control registers), `Widths`, `CallStack` (the hints, and the frames that a jump leaves).
//!
//! Sources: RISC-V Unprivileged ISA 20191213, chapters 2, 3, 7, 8, 9 and 16. The tables are those of `rv_decode`, `rv_compressed` and
//! `rv_extensions`, and undefined bits those of `definedness`. Which of these instructions a machine has is no matter of this crate.
#![tactic(auto)]

mod alu;
mod atomic;
mod code;
mod control;
mod hint;
mod instruction;
mod register;
mod width;

pub use alu::{computed, extended, is_undecided, passes};
pub use atomic::{Atomic, Update, updated};
pub use code::{Code, row_of_code};
pub use control::{ControlAccess, ControlOperand, replaced};
pub use hint::StackHint;
pub use instruction::{Comparison, Instruction, Operation, row_of, row_of_half};
pub use register::Register;
pub use width::Width;
