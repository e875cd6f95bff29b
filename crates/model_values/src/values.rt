//! The values of a model, and why it has none.
ghost use Rattle.std.specs.Prelude.{◌≡◌, ◌<◌, length, slice_index_or};

use cbl_base::{Input, NoMemory, Place, RunFault};

/// Why a model has no values: a fault with its place, or no memory.
#[derive(Clone, Copy, PartialEq, Eq, Debug)]
pub enum ModelStop {
    Fault(Place, RunFault),
    NoMemory,
}

impl From<NoMemory> for ModelStop {
    ghost use Rattle.std.specs.Prelude.{◌≡◌};
    ghost use Rattle.model_values.specs.declared.values.ModelStop.TheVariants.{NoMemory as WithoutMemory};

    ghost from_gives = { λ _ stop. stop ≡ WithoutMemory };

    fn from(_error: NoMemory) -> ModelStop {
        ModelStop::NoMemory
    }
}

/// The values of a model's variables, systems and objectives, each by its number from 0.
#[derive(Drop, Debug)]
pub struct Values {
    pub vars: Vec<Input>,
    pub systems: Vec<i64>,
    pub objectives: Vec<i64>,
}

impl Values {
    ghost use Rattle.std.specs.Prelude.{pos};
    ghost use Rattle.cbl_base.specs.declared.input.Input.TheVariants.{Int};

    /// The value of a variable.
    pub fn var(&self, index: u32) -> &Input
        requires { index < length self.now.vars.items }
        ensures { result.now ≡ slice_index_or self.now.vars.items index (Int (pos 0)) }
    {
        &self.vars[index as usize]
    }

    /// The violations of a system.
    pub fn system(&self, index: u32) -> i64
        requires { index < length self.now.systems.items }
        ensures { result ≡ slice_index_or self.now.systems.items index (pos 0) }
    {
        self.systems[index as usize]
    }

    /// The value of an objective.
    pub fn objective(&self, index: u32) -> i64
        requires { index < length self.now.objectives.items }
        ensures { result ≡ slice_index_or self.now.objectives.items index (pos 0) }
    {
        self.objectives[index as usize]
    }
}
