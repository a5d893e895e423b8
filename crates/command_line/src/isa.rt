//! The names of instruction sets, as `--isa` takes them and the table of a sweep has them.
ghost use Rattle.std.specs.Prelude.{◌≡◌, List, ℕ, Some};
ghost use Rattle.command_line.specs.Isas.{isa_name, isa_named};

use guest_elf::Isa;

/// Returns the instruction set of a name, if it is one.
pub fn isa_named(name: &str) -> Option<Isa>
    ensures { result ≡ isa_named name.now }
{
    if name == "rv32im" {
        Some(Isa::RV32IM)
    } else if name == "rv32imc" {
        Some(Isa::RV32IMC)
    } else if name == "rv32imac" {
        Some(Isa::RV32IMAC)
    } else {
        None
    }
}

/// Returns the name of an instruction set. If one stands for it, as for each that [`isa_named`] returns, it is read as the set again.
#[tactic(auto, using(crate::proofs::Isas::named_again))]
pub fn isa_name(isa: Isa) -> &'static str
    ensures name { result.now ≡ isa_name isa }
    ensures named { (text : List ℕ) → isa_named text ≡ Some isa → isa_named result.now ≡ Some isa }
{
    if isa.atomics {
        "rv32imac"
    } else if isa.compressed {
        "rv32imc"
    } else {
        "rv32im"
    }
}
