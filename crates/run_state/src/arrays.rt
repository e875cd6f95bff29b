//! Arrays that are taken whole, and arrays of their own.
ghost use Rattle.std.specs.Prelude.{◌≡◌, ◌≤◌, ℕ, List, [], IfErr, map};
ghost use Rattle.comet_meaning.specs.Calls as meaning;
ghost use Rattle.run_values.specs.Did.{Did};
ghost use Rattle.run_values.specs.Views.{value_seen};
ghost use Rattle.run_values.specs.declared.stop.Stop.TheVariants.{NoMemory};
ghost use Rattle.run_state.specs.Acts.{counted, copied_into, listed};
ghost use Rattle.run_state.specs.Stops.{IsQuiet};
ghost use Rattle.run_outside.specs.Told.{Told};
ghost use Rattle.run_state.specs.Views.{state_seen};

use crate::fuel::spend;
use crate::state::State;
use cbl_base::{Place, RunFault};
use checked_tree::Slot;
use run_outside::Outside;
use run_values::{Cells, Stop, Value};
use std::mem;

impl State {
    /// How often a number stands in an array. The call is charged, and then the cells, at the array's place, where each
    /// variable is read. `Spent` at the place whose charge the fuel doesn't reach for; else it stops as reading does.
    #[tactic(auto, unfolding(comet_meaning::specs::Cells::count_cells, comet_meaning::specs::Taking::taken_whole))]
    pub fn count<O: Outside>(
        &mut self,
        out: &O,
        call: Place,
        place: Place,
        array: &Value,
        number: i64,
    ) -> Result<Value, Stop>
        ensures did { Did value_seen result (state_seen self.new (O.told out.now))
            (counted call place (value_seen array.now) number
            (state_seen self.old (O.told out.now))) }
        ensures stop { IfErr result IsQuiet }
        ensures never_rises { self.new.fuel ≤ self.old.fuel }
    {
        spend(&mut self.fuel, 1, call)?;
        let cells = self.size(array);
        spend(&mut self.fuel, cells as u64, place)?;
        let count = self.count_read(out, place, array, number)?;
        Ok(Value::Number(count))
    }

    /// A name gets a new array of the numbers of an array, of which each variable is read at the second place; then the
    /// cells are charged at the first one. It stops as reading does, `Spent` where the fuel doesn't reach for them, and
    /// `NoMemory` where there is none.
    pub fn copy_array<O: Outside>(
        &mut self,
        out: &O,
        at: Place,
        place: Place,
        slot: Slot,
        array: &Value,
    ) -> Result<(), Stop>
        ensures did { Did (λ _. tt) result (state_seen self.new (O.told out.now))
            (copied_into at place slot (value_seen array.now)
            (state_seen self.old (O.told out.now))) }
        ensures stop { IfErr result IsQuiet }
        ensures never_rises { self.new.fuel ≤ self.old.fuel }
    {
        let numbers = self.read_numbers(out, place, array)?;
        let cells = numbers.len();
        spend(&mut self.fuel, cells as u64, at)?;
        let array = self.new_array(Cells::row(numbers))?;
        self.put(slot, array)
    }

    /// The numbers of a list of exactly so many, of which each variable is read at the second place; then they are charged
    /// at the first one. It stops as reading does; `OutOfRange` exactly where they are more or fewer, before anything is
    /// charged; `Spent` where the fuel doesn't reach for them, and `NoMemory` where there is none.
    pub fn listed<O: Outside>(
        &mut self,
        out: &O,
        at: Place,
        place: Place,
        count: u128,
        list: &Value,
    ) -> Result<Vec<i64>, Stop>
        ensures did { Did (λ numbers. numbers.items) result (state_seen self.new (O.told out.now))
            (listed at place count (value_seen list.now) (state_seen self.old (O.told out.now))) }
        ensures stop { IfErr result IsQuiet }
        ensures never_rises { self.new.fuel ≤ self.old.fuel }
    {
        let numbers = self.read_numbers(out, place, list)?;
        let cells = numbers.len();
        if cells as u128 != count {
            return Err(Stop::Fault(at, RunFault::OutOfRange));
        }
        spend(&mut self.fuel, cells as u64, at)?;
        Ok(numbers)
    }

    /// The arguments as a function has them: numbers in a row become an array that it may write, unless it is pure.
    /// `NoMemory` where there is none for the arrays; there is no other stop.
    pub fn handed(&mut self, pure: bool, values: Vec<Value>) -> Result<Vec<Value>, Stop>
        ensures did { (told : Told) → Did (λ handed.
            map value_seen handed.items) result (state_seen self.new told)
            (meaning.handed pure (map value_seen values.items) (state_seen self.old told)) }
        ensures memory { IfErr result (λ stop. stop ≡ NoMemory) }
        ensures fuel { self.new.fuel ≡ self.old.fuel }
    {
        if pure {
            return Ok(values);
        }
        self.own_arrays(values)
    }

    /// The values, with each row of numbers as an array of its own.
    fn own_arrays(&mut self, values: Vec<Value>) -> Result<Vec<Value>, Stop>
        ensures did { (told : Told) → Did (λ owned.
            map value_seen owned.items) result (state_seen self.new told)
            (meaning.own_arrays (map value_seen values.items) [] (state_seen self.old told)) }
        ensures memory { IfErr result (λ stop. stop ≡ NoMemory) }
        ensures fuel { self.new.fuel ≡ self.old.fuel }
    {
        let mut owned = values;
        for i in 0..owned.len() {
            let value = mem::replace(&mut owned[i], Value::Nothing);
            owned[i] = self.own_array(value)?;
        }
        Ok(owned)
    }

    /// A row of numbers as an array of its own, and any other value as it is.
    fn own_array(&mut self, value: Value) -> Result<Value, Stop>
        ensures did { (told : Told) → Did value_seen result (state_seen self.new told)
            (meaning.own_array (value_seen value) (state_seen self.old told)) }
        ensures memory { IfErr result (λ stop. stop ≡ NoMemory) }
        ensures fuel { self.new.fuel ≡ self.old.fuel }
    {
        match value {
            Value::Row(numbers) => self.new_array(Cells::row(numbers)),
            value => Ok(value),
        }
    }
}
