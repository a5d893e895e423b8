//! One change of a run.
ghost use Rattle.std.specs.Prelude.{◌≡◌};
ghost use Rattle.sweep_plans.specs.Changes.{IsRight, act_of, edit_of, glitch_edit};

use commands::Edit;
use instructions::Register;
use run_values::{Act, Alteration};

/// What a fault of one moment does to a machine that runs.
#[derive(Clone, Copy, PartialEq, Eq)]
pub enum Glitch {
    /// Leaves out the instruction at pc.
    Skip,
    /// Turns the bits of a mask in a register, x0 to x31. Its undefined bits stay undefined.
    Flip { register: u8, mask: u32 },
    /// Turns the bits of a mask in pc.
    FlipPc { mask: u32 },
    /// Sets a register, x0 to x31, to a value whose bits are all defined.
    Set { register: u8, value: u32 },
    /// Turns the bits of a mask in the word at an address. What is known of its bytes stays.
    Turn { addr: u32, mask: u32 },
}

/// Another value at one place, or what a fault does at one step.
#[derive(Clone, Copy)]
pub enum Change {
    /// Another byte of the input.
    Byte {
        offset: u32,
        byte: u8,
    },
    /// Another word of the program.
    Word {
        addr: u32,
        word: u32,
    },
    /// Another half of the program.
    Half {
        addr: u32,
        half: u16,
    },
    /// A glitch just before a step.
    Once {
        step: u32,
        glitch: Glitch,
    },
    /// A glitch just before a step, and another one just before a later step.
    Twice {
        step: u32,
        glitch: Glitch,
        later: u32,
        other: Glitch,
    },
}

impl Glitch {
    /// Returns what it does to a machine, as an act of an alteration.
    fn act(self) -> Act
        requires { IsRight self }
        ensures { result ≡ act_of self }
    {
        match self {
            Glitch::Skip => Act::Skip,
            Glitch::Flip { register, mask } => Act::Flip {
                register: Register::new(register),
                mask,
            },
            Glitch::FlipPc { mask } => Act::FlipPc { mask },
            Glitch::Set { register, value } => Act::Set {
                register: Register::new(register),
                value,
                undef: 0,
            },
            Glitch::Turn { addr, mask } => Act::Turn { addr, mask },
        }
    }
}

/// Returns the edit of a scenario that has a glitch happen just before a step.
fn glitch_edit(step: u32, glitch: Glitch) -> Edit
    requires { IsRight glitch }
    ensures { result ≡ glitch_edit step glitch }
{
    Edit::Mark(Alteration {
        step,
        act: glitch.act(),
    })
}

impl Change {
    ghost use Rattle.sweep_plans.specs.Changes.{IsFit};

    /// Returns the edit of a scenario that applies the change; of two edits the first.
    pub fn edit(self) -> Edit
        requires { IsFit self }
        ensures { result ≡ edit_of self }
    {
        match self {
            Change::Byte { offset, byte } => Edit::Input { offset, byte },
            Change::Word { addr, word } => Edit::Patch { addr, word },
            Change::Half { addr, half } => Edit::PatchHalf { addr, half },
            Change::Once { step, glitch } | Change::Twice { step, glitch, .. } => {
                glitch_edit(step, glitch)
            }
        }
    }
}
