//! The calls on a machine between steps.
ghost use Rattle.std.specs.Prelude.{◌≡◌, IfOk, OnOk, []};
ghost use Rattle.shadow_memory.specs.Memories.{bytes_in, shadows_in};
ghost use Rattle.guest_machine.specs.Loading.{loaded_bytes, loaded_shadows};
ghost use Rattle.guest_machine.specs.State.{State};
ghost use Rattle.guest_machine.specs.Alterations.{altered};
ghost use Rattle.guest_machine.specs.Run.{start_state, marked, poked};
ghost use Rattle.guest_machine.specs.Shows.{bytes_of, core_of, Holds, Shows};
ghost use Rattle.instructions.specs.declared.code.Code.TheVariants.{Word};

use crate::cached_memory::CachedMemory;
use crate::machine::registers::known;
use crate::machine::{Guest, Machine, Noted, Progress};
use call_stacks::CallStack;
use control_registers::ControlRegisters;
use error_events::Groups;
use guest_elf::{Image, Segment};
use guest_heap::Heap;
use instructions::Code;
use memory_map::FIRST_STACK_BYTES;
use run_values::{Alteration, Mark, Status};
use shadow_memory::Memory;
use std::alloc::{AllocError, Global};

impl Guest {
    fn start(alloc: Global, image: &Image) -> Result<Guest, AllocError>
        ensures { IfOk result (λ guest. Holds guest (start_state image.now)) }
    {
        let profile = image.profile();
        let stack_start = profile.regions.stack_start();
        let mut memory = Memory::new(alloc);
        load_segments(&mut memory, image.segments())?;
        memory.fill(stack_start, FIRST_STACK_BYTES, &[])?;
        let cached = CachedMemory::new(alloc, memory);
        let mut registers = [known(0); 32];
        registers[2] = known(stack_start);
        Ok(Guest {
            alloc,
            memory: cached,
            registers,
            pc: image.entry(),
            status: Status::Running,
            frames: CallStack::new(alloc)?,
            heap: Heap::new_in(alloc, profile.regions),
            progress: Progress {
                position: 0,
                end_seen: false,
                output_len: 0,
                heap_calls: 0,
            },
            noted: Noted {
                groups: Groups::new(alloc),
                raised: false,
            },
            isa: profile.isa,
            stack: profile.regions.stack(),
            limits: profile.limits,
            reserved: None,
            controls: ControlRegisters::new(alloc),
            steps: 0,
        })
    }

    fn alter(&mut self, alteration: &Alteration) -> Result<(), AllocError>
        ensures { OnOk result ((s : State) → Holds self.old s → Holds self.new (altered s alteration.now)) }
    {
        self.act(alteration.act)
    }

    fn poke(&mut self, addr: u32, code: Code) -> Result<(), AllocError>
        ensures { OnOk result ((s : State) → Holds self.old s → Holds self.new (poked s addr code)) }
    {
        self.memory.poke(addr, code)?;
        Ok(())
    }

    fn share(&self) -> Result<Guest, AllocError>
        ensures { IfOk result (λ copy. (s : State) → Holds self.now s → Holds copy s) }
    {
        let memory = self.memory.share(self.alloc)?;
        self.share_over(memory)
    }

    /// See [`Guest::share`]. The copy has decoded the same.
    fn share_warm(&self) -> Result<Guest, AllocError>
        ensures { IfOk result (λ copy. (s : State) → Holds self.now s → Holds copy s) }
    {
        let memory = self.memory.share_warm(self.alloc)?;
        self.share_over(memory)
    }

    /// Copies what another guest has decoded, for the codes that are the same in both memories.
    fn copy_decoded(&mut self, other: &Guest)
        ensures { self.new ≡ self.old }
    {
        self.memory.copy_decoded(self.alloc, &other.memory);
    }

    /// Takes over what another guest has decoded, for the codes that are the same in both memories, unless this one has decoded something
    /// itself.
    fn move_decoded(&mut self, other: &mut Guest)
        ensures same { self.new ≡ self.old }
        ensures other { other.new ≡ other.old }
    {
        self.memory.move_decoded(self.alloc, &mut other.memory);
    }

    /// See [`Guest::share`]. What was decoded moves to the copy.
    fn share_moving(&mut self) -> Result<Guest, AllocError>
        ensures same { self.new ≡ self.old }
        ensures copy { IfOk result (λ copy. (s : State) → Holds self.old s → Holds copy s) }
    {
        let memory = self.memory.share_moving(self.alloc)?;
        self.share_over(memory)
    }

    /// A guest that shares everything except its memory, of which it already has a copy.
    fn share_over(&self, memory: CachedMemory) -> Result<Guest, AllocError>
        requires bytes { bytes_in memory ≡ bytes_of self.now }
        requires shadows { shadows_in memory ≡ (core_of self.now).shadow }
        ensures { IfOk result (λ copy. (s : State) → Holds self.now s → Holds copy s) }
    {
        Ok(Guest {
            alloc: self.alloc,
            memory,
            registers: self.registers,
            pc: self.pc,
            status: self.status,
            frames: self.frames.share()?,
            heap: self.heap.share()?,
            progress: self.progress,
            noted: Noted {
                groups: self.noted.groups.share()?,
                raised: self.noted.raised,
            },
            isa: self.isa,
            stack: self.stack,
            limits: self.limits,
            reserved: self.reserved,
            controls: self.controls.share()?,
            steps: self.steps,
        })
    }
}

#[tactic(auto, unfolding(crate::specs::Shows::Shows))]
impl Machine {
    /// Returns the machine before step 0. The image's bytes are loaded, accessible and defined, as are sixteen zero bytes at the top of the
    /// stack, to which x2 points. pc is the entry, the other registers are 0, and all registers are defined.
    pub fn start(alloc: Global, image: &Image) -> Result<Machine, AllocError>
        ensures { IfOk result (λ machine. Shows machine (start_state image.now)) }
    {
        let guest = Guest::start(alloc, image)?;
        Ok(Machine {
            guest: Box::new(alloc, guest)?,
        })
    }

    /// Returns the machine with a range made inaccessible, undefined or defined; byte values stay. Drops the machine if memory runs out.
    #[tactic(auto, unfolding(crate::specs::Alterations::altered, crate::specs::Alterations::altered_core, crate::specs::Alterations::altered_bytes, crate::specs::Run::marked))]
    pub fn mark(self, mark: &Mark) -> Result<Machine, AllocError>
        ensures { IfOk result (λ r. (s : State) → Shows self s → Shows r (marked s mark.now)) }
    {
        self.alter(&Alteration::from(*mark))
    }

    /// Returns the machine with an alteration made: a range at any time, all else only if it runs. Drops the machine if memory runs out.
    pub fn alter(self, alteration: &Alteration) -> Result<Machine, AllocError>
        ensures { IfOk result (λ r. (s : State) → Shows self s → Shows r (altered s alteration.now)) }
    {
        let mut machine = self;
        machine.guest.alter(alteration)?;
        Ok(machine)
    }

    /// Returns the machine with the bytes from `addr` on (modulo 2^32) set to those of a code, the lowest first. Their accessibility and
    /// undefined bits stay. Drops the machine if memory runs out.
    pub fn poke(self, addr: u32, code: Code) -> Result<Machine, AllocError>
        ensures { IfOk result (λ r. (s : State) → Shows self s → Shows r (poked s addr code)) }
    {
        let mut machine = self;
        machine.guest.poke(addr, code)?;
        Ok(machine)
    }

    /// Returns the machine with four bytes set to a word, as [`Machine::poke`] does.
    pub fn poke_word(self, addr: u32, word: u32) -> Result<Machine, AllocError>
        ensures { IfOk result (λ r. (s : State) → Shows self s → Shows r (poked s addr (Word word))) }
    {
        self.poke(addr, Code::Word(word))
    }

    /// Returns another machine that shows the same.
    pub fn share(&self) -> Result<Machine, AllocError>
        ensures { IfOk result (λ copy. (s : State) → Shows self.now s → Shows copy s) }
    {
        let guest = self.guest.share()?;
        Ok(Machine {
            guest: Box::new(self.guest.alloc, guest)?,
        })
    }

    /// Returns a copy as [`Machine::share`] does, for several copies that each continue the run: they have decoded what this machine has,
    /// so that their first steps cost no more than later ones. If memory runs out only for that, a copy has decoded nothing.
    pub fn share_warm(&self) -> Result<Machine, AllocError>
        ensures { IfOk result (λ copy. (s : State) → Shows self.now s → Shows copy s) }
    {
        let guest = self.guest.share_warm()?;
        Ok(Machine {
            guest: Box::new(self.guest.alloc, guest)?,
        })
    }

    /// Copies the instructions that another machine has decoded, for the codes that are the same in both. What this machine shows stays.
    pub fn copy_decoded(&mut self, other: &Machine)
        ensures { self.new ≡ self.old }
    {
        self.guest.copy_decoded(&other.guest);
    }

    /// Takes over the instructions that another machine has decoded, for the codes that are the same in both, unless this one has decoded
    /// some itself. The other one's next steps cost more then. What the two show stays.
    pub fn move_decoded(&mut self, other: &mut Machine)
        ensures same { self.new ≡ self.old }
        ensures other { other.new ≡ other.old }
    {
        self.guest.move_decoded(&mut other.guest);
    }

    /// Returns a copy as [`Machine::share`] does, for the copy that continues the run: instructions that were decoded move to it. What this
    /// machine shows stays, and its next steps cost more.
    pub fn share_moving(&mut self) -> Result<Machine, AllocError>
        ensures same { self.new ≡ self.old }
        ensures copy { IfOk result (λ copy. (s : State) → Shows self.old s → Shows copy s) }
    {
        let guest = self.guest.share_moving()?;
        Ok(Machine {
            guest: Box::new(self.guest.alloc, guest)?,
        })
    }
}

/// Loads segments, the first one last, so that it counts where segments share an address.
fn load_segments(memory: &mut Memory, segments: &[Segment]) -> Result<(), AllocError>
    ensures bytes { OnOk result (bytes_in memory.new ≡ loaded_bytes segments.now (bytes_in memory.old)) }
    ensures shadows { OnOk result (shadows_in memory.new ≡ loaded_shadows segments.now (shadows_in memory.old)) }
{
    let mut left = segments.len();
    while left > 0 {
        left -= 1;
        let segment = segments[left];
        memory.fill(segment.vaddr, segment.memsz, segment.bytes)?;
    }
    Ok(())
}
