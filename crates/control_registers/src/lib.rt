//! The control and status registers (CSRs) of a RISC-V hart, as words with undefined bits.
//!
//! [`ControlRegisters`] holds a register for each number (RISC-V Unprivileged ISA 20191213, chapter 9: 4,096 registers, by numbers of 12
//! bits). A register has 0, defined, until it is written. What a register means is left to the layers above: each has 32 bits, and a write
//! changes no other register.
//!
//! | Call | What it does | What it costs |
//! |---|---|---|
//! | [`ControlRegisters::new`] | returns registers of which none is written | constant; allocates nothing |
//! | [`ControlRegisters::read`] | returns what a register has | a search in a tree of the registers that were written; allocates nothing |
//! | [`ControlRegisters::write`] | writes a register | the same search; the first write after a copy is made copies the tree |
//! | [`ControlRegisters::share`] | returns a copy, which later writes of the original don't reach | constant; allocates nothing |
//! | [`ControlRegisters::is_same`] | returns whether each register has the same in another set | a search for each register that was written in either set; allocates nothing |
//!
//! Only `write` allocates memory. If it fails, every register keeps what it had.
//!
//! # What a caller can rely on
//!
//! Contracts speak of `registers_in`, the function from the number of each register to what it has (`specs/Written.antt`). `new` is
//! `no_registers` and `write` is `with_register` of that function; both are in `specs/Registers.antt`. `specs/Comparing.antt` is only for
//! this crate's proofs.
#![tactic(auto)]

mod registers;

pub use registers::ControlRegisters;
