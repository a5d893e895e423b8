//! Reads a list of fault models.
ghost use Rattle.std.specs.Prelude.{◌≡◌};
ghost use Rattle.sweep_plans.specs.Models.{has, joined, model_of, models_of, no_models, with_model};

use crate::plan::FaultModels;
use texts::Parts;

const SKIP: &[u8] = b"skip";

const REGISTERS: &[u8] = b"registers";

const PC: &[u8] = b"pc";

const WORDS: &[u8] = b"words";

const MEMORY: &[u8] = b"memory";

const ZERO: &[u8] = b"zero";

const ONES: &[u8] = b"ones";

/// A fault model, by its name.
#[derive(Clone, Copy)]
pub enum FaultModel {
    Skip,
    Registers,
    Pc,
    Words,
    Memory,
    Zero,
    Ones,
}

/// Returns the fault model of a name.
#[tactic(auto, unfolding(crate::specs::Models::model_of))]
fn model_of(name: &[u8]) -> Option<FaultModel>
    ensures { result ≡ model_of name.now }
{
    if name == SKIP {
        Some(FaultModel::Skip)
    } else if name == REGISTERS {
        Some(FaultModel::Registers)
    } else if name == PC {
        Some(FaultModel::Pc)
    } else if name == WORDS {
        Some(FaultModel::Words)
    } else if name == MEMORY {
        Some(FaultModel::Memory)
    } else if name == ZERO {
        Some(FaultModel::Zero)
    } else if name == ONES {
        Some(FaultModel::Ones)
    } else {
        None
    }
}

impl FaultModels {
    /// Returns no models.
    pub(crate) fn none() -> FaultModels
        ensures { result ≡ no_models }
    {
        FaultModels {
            skip: false,
            registers: false,
            pc: false,
            words: false,
            memory: false,
            zero: false,
            ones: false,
        }
    }

    /// Returns whether a model is one of these.
    fn has(self, model: FaultModel) -> bool
        ensures { result ≡ has self model }
    {
        match model {
            FaultModel::Skip => self.skip,
            FaultModel::Registers => self.registers,
            FaultModel::Pc => self.pc,
            FaultModel::Words => self.words,
            FaultModel::Memory => self.memory,
            FaultModel::Zero => self.zero,
            FaultModel::Ones => self.ones,
        }
    }

    /// Adds a model.
    fn add(&mut self, model: FaultModel)
        ensures { self.new ≡ with_model self.old model }
    {
        match model {
            FaultModel::Skip => self.skip = true,
            FaultModel::Registers => self.registers = true,
            FaultModel::Pc => self.pc = true,
            FaultModel::Words => self.words = true,
            FaultModel::Memory => self.memory = true,
            FaultModel::Zero => self.zero = true,
            FaultModel::Ones => self.ones = true,
        }
    }
}

/// Returns some models with that of a name, if it is one that isn't among them.
fn join(models: FaultModels, name: &[u8]) -> Option<FaultModels>
    ensures { result ≡ joined models (model_of name.now) }
{
    let model = model_of(name)?;
    if models.has(model) {
        return None;
    }
    let mut more = models;
    more.add(model);
    Some(more)
}

/// Returns the fault models between commas, if none is there twice.
#[tactic(auto, unfolding(crate::specs::Models::models_from))]
pub fn models_of(text: &[u8]) -> Option<FaultModels>
    ensures { result ≡ models_of text.now }
{
    let mut parts = Parts::new(text, b',');
    let mut models = FaultModels::none();
    while let Some(part) = parts.next() {
        models = join(models, part)?;
    }
    Some(models)
}
