//! What is written, and what stands there.
ghost use Rattle.std.specs.Prelude.{◌≡◌, ℕ, List, IfErr};
ghost use Rattle.comet_meaning.specs.Outcome.{Went};
ghost use Rattle.comet_meaning.specs.Writes as meaning;
ghost use Rattle.comet_meaning.specs.Writes.{moved, name_target, old_value};
ghost use Rattle.run_values.specs.Did.{Did, IsFault};
ghost use Rattle.run_values.specs.Views.{value_seen};
ghost use Rattle.run_values.specs.declared.stop.Stop.TheVariants.{NoMemory};
ghost use Rattle.run_state.specs.Acts.{moved_in, index_written, cell_written};
ghost use Rattle.run_state.specs.Targets.{target_seen};
ghost use Rattle.run_outside.specs.Told.{Told};
ghost use Rattle.run_state.specs.Views.{state_seen};

use crate::state::State;
use cbl_base::{Place, RunFault, VarId};
use checked_tree::{Kind, Slot};
use run_values::{Stop, Value};

/// What is written.
#[derive(Drop)]
pub enum Target {
    Nowhere,
    /// The cell of a name.
    Name(Slot),
    /// A cell of the array of numbers with this number.
    Element(usize, u128),
    Moved(VarId),
}

impl State {
    /// What a name stands for where it is written: a name of a variable stands for the variable, and any other for its
    /// own cell. `NoMemory` where there is none; there is no other stop.
    #[tactic(auto, unfolding(comet_meaning::specs::Writes::name_target))]
    pub fn name_target(&self, kind: Kind, slot: Slot) -> Result<Target, Stop>
        ensures did { (told : Told) → Did target_seen result (state_seen self.now told)
            (name_target kind slot (state_seen self.now told)) }
        ensures memory { IfErr result (λ stop. stop ≡ NoMemory) }
    {
        match kind {
            Kind::Variable => self.moved_name(slot),
            Kind::SetVariable => self.moved_name(slot),
            _ => Ok(Target::Name(slot)),
        }
    }

    /// The variable that a name's cell holds, and nothing where it holds none.
    #[tactic(auto, unfolding(comet_meaning::specs::Cells::look))]
    fn moved_name(&self, slot: Slot) -> Result<Target, Stop>
        ensures did { (told : Told) → Did target_seen result (state_seen self.now told)
            (moved_in slot (state_seen self.now told)) }
        ensures memory { IfErr result (λ stop. stop ≡ NoMemory) }
    {
        let value = self.look(slot)?;
        Ok(moved(&value))
    }

    /// The cell of an index. `OutOfRange` at this place exactly where there is no such cell; there is no other stop.
    #[tactic(auto, unfolding(comet_meaning::specs::Cells::extent))]
    pub fn index_target(&self, at: Place, array: &Value, index: i64) -> Result<Target, Stop>
        ensures did { (told : Told) → Did target_seen result (state_seen self.now told)
            (index_written at (value_seen array.now) index (state_seen self.now told)) }
        ensures stop { IfErr result IsFault }
    {
        match self.extent(array).at_index(index) {
            Some(cell) => Ok(self.element_of(array, cell)),
            None => Err(Stop::Fault(at, RunFault::OutOfRange)),
        }
    }

    /// The cell of a row's index and a column's. `OutOfRange` at this place exactly where there is no such cell; there
    /// is no other stop.
    #[tactic(auto, unfolding(comet_meaning::specs::Cells::extent))]
    pub fn cell_target(
        &self,
        at: Place,
        array: &Value,
        row: i64,
        column: i64,
    ) -> Result<Target, Stop>
        ensures did { (told : Told) → Did target_seen result (state_seen self.now told)
            (cell_written at (value_seen array.now) row column (state_seen self.now told)) }
        ensures stop { IfErr result IsFault }
    {
        match self.extent(array).at_indices(row, column) {
            Some(cell) => Ok(self.element_of(array, cell)),
            None => Err(Stop::Fault(at, RunFault::OutOfRange)),
        }
    }

    /// A cell of an array of numbers, the variable in a cell of one of variables, and nothing of what is no array.
    #[tactic(auto, unfolding(comet_meaning::specs::Writes::element_of, comet_meaning::specs::Cells::cell))]
    fn element_of(&self, array: &Value, cell: u128) -> Target
        ensures { (told : Told) → meaning.element_of (value_seen array.now) cell
            (state_seen self.now told) ≡ Went (target_seen result) (state_seen self.now told) }
    {
        match array {
            Value::Array(number) => Target::Element(*number, cell),
            Value::Variables(number) => moved(&self.variable_in(*number, cell)),
            _ => Target::Nowhere,
        }
    }

    /// What stands where it is written, before it is. `NoMemory` where there is none for a copy; there is no other stop.
    #[tactic(auto, unfolding(comet_meaning::specs::Writes::old_value, comet_meaning::specs::Cells::cells))]
    pub fn old_value(&self, target: &Target) -> Result<Value, Stop>
        ensures did { (told : Told) → Did value_seen result (state_seen self.now told)
            (old_value (target_seen target.now) (state_seen self.now told)) }
        ensures memory { IfErr result (λ stop. stop ≡ NoMemory) }
    {
        match target {
            Target::Name(slot) => self.look(*slot),
            Target::Element(array, cell) => Ok(self.element(*array, *cell)),
            Target::Nowhere => Ok(Value::Nothing),
            Target::Moved(_) => Ok(Value::Nothing),
        }
    }
}

/// A variable, and nothing of what is none.
fn moved(value: &Value) -> Target
    ensures { target_seen result ≡ moved (value_seen value.now) }
{
    match value {
        Value::Variable(variable) => Target::Moved(*variable),
        _ => Target::Nowhere,
    }
}
