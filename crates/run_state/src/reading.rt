//! Variables that are read, and arrays of them.
ghost use Rattle.std.specs.Prelude.{◌≡◌, ℕ, List, [], IfErr, map, pos};
ghost use Rattle.cbl_base.specs.Counts.{count_of};
ghost use Rattle.comet_meaning.specs.Parts as parts;
ghost use Rattle.comet_meaning.specs.Taking as meaning;
ghost use Rattle.comet_meaning.specs.Values as values;
ghost use Rattle.run_values.specs.Did.{Did, IsFaultOrMemory};
ghost use Rattle.run_values.specs.Views.{value_seen};
ghost use Rattle.run_state.specs.Acts.{numbers_read, count_read};
ghost use Rattle.run_state.specs.Views.{state_seen};

use crate::state::State;
use cbl_base::{Place, VarId};
use run_outside::Outside;
use run_values::values::numbers_of;
use run_values::{Stop, Value};

impl State {
    /// What is read at a place: of a variable its value, and anything else as it is. At this place `WrongSolver` exactly
    /// where its solver has no such variable, and `NotClosed` exactly where only a closed solver has its value.
    #[tactic(auto, unfolding(comet_meaning::specs::Parts::read))]
    pub fn read<O: Outside>(&self, out: &O, at: Place, value: Value) -> Result<Value, Stop>
        ensures did { Did value_seen result (state_seen self.now (O.told out.now))
            (parts.read at (value_seen value) (state_seen self.now (O.told out.now))) }
        ensures stop { IfErr result IsFaultOrMemory }
    {
        match value {
            Value::Variable(variable) => out.read_variable(at, variable),
            value => Ok(value),
        }
    }

    /// The values of variables that are read at a place, one after another.
    pub(crate) fn read_each<O: Outside>(
        &self,
        out: &O,
        at: Place,
        variables: &[VarId],
    ) -> Result<Vec<Value>, Stop>
        ensures did { Did (λ values. map value_seen values.items) result
            (state_seen self.now (O.told out.now))
            (meaning.read_each at variables.now [] (state_seen self.now (O.told out.now))) }
        ensures stop { IfErr result IsFaultOrMemory }
    {
        let mut values = Vec::new(self.alloc);
        for variable in variables {
            values.push(out.read_variable(at, *variable)?)?;
        }
        Ok(values)
    }

    /// The numbers of an array, of which each variable is read at this place.
    pub fn read_numbers<O: Outside>(
        &self,
        out: &O,
        at: Place,
        array: &Value,
    ) -> Result<Vec<i64>, Stop>
        ensures did { Did (λ numbers. numbers.items) result (state_seen self.now (O.told out.now))
            (numbers_read at (value_seen array.now) (state_seen self.now (O.told out.now))) }
        ensures stop { IfErr result IsFaultOrMemory }
    {
        match array {
            Value::Variables(number) => self.variables_read(out, at, *number),
            _ => {
                let numbers = Vec::from_slice(self.alloc, self.numbers(array))?;
                Ok(numbers)
            }
        }
    }

    /// The numbers of an array of variables, which are read at this place.
    fn variables_read<O: Outside>(&self, out: &O, at: Place, array: usize) -> Result<Vec<i64>, Stop>
        ensures did { Did (λ numbers. numbers.items) result (state_seen self.now (O.told out.now))
            (numbers_read at (values.Variables array) (state_seen self.now (O.told out.now))) }
        ensures stop { IfErr result IsFaultOrMemory }
    {
        let values = self.read_each(out, at, self.variables(array))?;
        numbers_of(self.alloc, &values)
    }

    /// How often a number stands in an array, of which each variable is read at this place.
    pub(crate) fn count_read<O: Outside>(
        &self,
        out: &O,
        at: Place,
        array: &Value,
        number: i64,
    ) -> Result<i64, Stop>
        ensures did { Did (λ count. count) result (state_seen self.now (O.told out.now))
            (count_read at (value_seen array.now) number (state_seen self.now (O.told out.now))) }
        ensures stop { IfErr result IsFaultOrMemory }
    {
        match array {
            Value::Variables(variables) => {
                let numbers = self.variables_read(out, at, *variables)?;
                Ok(count_in(number, &numbers))
            }
            _ => Ok(count_in(number, self.numbers(array))),
        }
    }
}

/// At how many places the number stands.
fn count_in(number: i64, cells: &[i64]) -> i64
    ensures { result ≡ pos (count_of number cells.now) }
{
    count_of(number, cells) as i64
}

/// At how many places the number stands.
fn count_of(number: i64, cells: &[i64]) -> usize
    ensures { result ≡ count_of number cells.now }
{
    cells.iter().filter(|x| **x == number).count()
}
