//! Control and status registers.
ghost use Rattle.std.specs.Prelude.{◌≡◌, ◌↔◌, Some, IsTrue, IfOk, OnOk, OnErr};
ghost use Rattle.std.specs.List.{All};
ghost use Rattle.std.specs.Ordering.{nat_cmp};
ghost use Rattle.std.specs.BTreeMap.{get};
ghost use Rattle.control_registers.specs.Comparing.{HasSameOrZero};
ghost use Rattle.control_registers.specs.Registers.{no_registers, with_register};
ghost use Rattle.control_registers.specs.Written.{mapped, registers_in};

use definedness::Bits;
use std::alloc::{AllocError, Global};
use std::collections::BTreeMap;
use std::rc::Rc;

/// What a register has until it is written.
const NOT_WRITTEN: Bits = Bits { value: 0, undef: 0 };

/// A register for each number. Contracts see what the registers have as `registers_in`.
#[derive(Drop)]
pub struct ControlRegisters {
    alloc: Global,
    // The registers that were written. Copies share the map until one of them is written.
    written: Option<Rc<BTreeMap<u16, Bits>>>,
}

#[tactic(auto, unfolding(crate::specs::Written::registers_in))]
impl ControlRegisters {
    /// Returns registers of which none is written: each has 0, defined. Allocates nothing.
    pub fn new(alloc: Global) -> ControlRegisters
        ensures { registers_in result ≡ no_registers }
    {
        ControlRegisters {
            alloc,
            written: None,
        }
    }

    /// Returns what the register of a number has. Allocates nothing, and costs a search in a tree of the registers that were written.
    pub fn read(&self, number: u16) -> Bits
        ensures { result ≡ registers_in self.now number }
    {
        match &self.written {
            Some(map) => read_in(map, number),
            None => NOT_WRITTEN,
        }
    }

    /// Writes the register of a number. Costs as much as [`ControlRegisters::read`]; if a copy shares the registers, copies all that were
    /// written.
    ///
    /// # Errors
    ///
    /// Fails if an allocation fails: each register then keeps what it had.
    pub fn write(&mut self, number: u16, bits: Bits) -> Result<(), AllocError>
        ensures ok { OnOk result (registers_in self.new ≡ with_register (registers_in self.old) number bits) }
        ensures err { OnErr result (registers_in self.new ≡ registers_in self.old) }
    {
        match &mut self.written {
            Some(shared) => write_shared(shared, number, bits),
            None => {
                let mut map = BTreeMap::new(self.alloc);
                write_in(&mut map, number, bits)?;
                self.written = Some(Rc::new(self.alloc, map)?);
                Ok(())
            }
        }
    }

    /// Returns a copy, which later writes of the original don't reach. Allocates nothing, and costs the same for any number of registers.
    pub fn share(&self) -> Result<ControlRegisters, AllocError>
        ensures { IfOk result (λ copy. registers_in copy ≡ registers_in self.now) }
    {
        let written = match &self.written {
            Some(map) => Some(map.clone()?),
            None => None,
        };
        Ok(ControlRegisters {
            alloc: self.alloc,
            written,
        })
    }

    /// Returns whether each register has the same in another set. Allocates nothing, and costs a search for each register that was written
    /// in either set.
    #[tactic(auto, using(crate::proofs::Same::both_same))]
    pub fn is_same(&self, other: &ControlRegisters) -> bool
        ensures { IsTrue result ↔ registers_in self.now ≡ registers_in other.now }
    {
        self.agrees(other) && other.agrees(self)
    }

    /// Returns whether each register that was written in this set has the same in another set.
    fn agrees(&self, other: &ControlRegisters) -> bool
        ensures same { registers_in self.now ≡ registers_in other.now → IsTrue result }
        ensures each { IsTrue result → HasSameOrZero (registers_in self.now) (registers_in other.now) }
    {
        match &self.written {
            Some(map) => agrees_in(map, other),
            None => true,
        }
    }
}

/// Returns what the register of a number has.
fn read_in(map: &BTreeMap<u16, Bits>, number: u16) -> Bits
    ensures { result ≡ mapped map.now number }
{
    match map.get(&number) {
        Some(bits) => *bits,
        None => NOT_WRITTEN,
    }
}

/// Writes the register of a number.
fn write_in(map: &mut BTreeMap<u16, Bits>, number: u16, bits: Bits) -> Result<(), AllocError>
    ensures ok { OnOk result (mapped map.new ≡ with_register (mapped map.old) number bits) }
    ensures err { OnErr result (mapped map.new ≡ mapped map.old) }
{
    map.insert(number, bits)?;
    Ok(())
}

/// Writes the register of a number. The other owners keep the map as it was.
fn write_shared(
    shared: &mut Rc<BTreeMap<u16, Bits>>,
    number: u16,
    bits: Bits,
) -> Result<(), AllocError>
    ensures ok { OnOk result (mapped shared.new.value ≡ with_register (mapped shared.old.value) number bits) }
    ensures err { OnErr result (mapped shared.new.value ≡ mapped shared.old.value) }
{
    let own = Rc::make_mut(shared)?;
    write_in(own, number, bits)
}

/// Returns whether each register that was written in a map has the same in a set.
fn all_in(map: &BTreeMap<u16, Bits>, other: &ControlRegisters) -> bool
    ensures each { IsTrue result ↔ All (λ e. registers_in other.now e.0 ≡ e.1) map.now.entries }
    ensures found { All (λ e. get nat_cmp map.now e.0 ≡ Some e.1) map.now.entries }
{
    map.iter()
        .all(|(number, bits)| other.read(*number) == *bits)
}

/// Returns what [`all_in`] returns; the contract is of registers, and not of entries.
fn agrees_in(map: &BTreeMap<u16, Bits>, other: &ControlRegisters) -> bool
    ensures same { mapped map.now ≡ registers_in other.now → IsTrue result }
    ensures each { IsTrue result → HasSameOrZero (mapped map.now) (registers_in other.now) }
{
    all_in(map, other)
}
