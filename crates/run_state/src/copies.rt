//! Copies of a state.
ghost use Rattle.std.specs.Prelude.{◌≡◌, ℕ, List, IfErr, IfOk};
ghost use Rattle.run_state.specs.Copies.{without_data};
ghost use Rattle.run_outside.specs.Told.{Told};
ghost use Rattle.run_state.specs.Views.{state_seen};
ghost use Rattle.run_values.specs.declared.stop.Stop.TheVariants.{NoMemory};

use crate::state::State;
use run_search::{Search, copied_moves};
use run_values::Stop;
use run_values::cells::{copied_arrays, copied_variables};
use run_values::values::copied_values;
use std::alloc::Global;

impl State {
    /// A copy with this fuel, and without the data, its inputs, and what no pure expression sees of a search. `NoMemory` where
    /// there is none for it; there is no other stop.
    #[tactic(auto, unfolding(run_search::specs::Searches::moves_seen))]
    pub fn without_data(&self, fuel: u64) -> Result<State, Stop>
        ensures same { (told : Told) → IfOk result (λ copy.
            state_seen copy told ≡ without_data fuel (state_seen self.now told)) }
        ensures memory { IfErr result (λ stop. stop ≡ NoMemory) }
    {
        let alloc = self.alloc;
        let globals = copied_values(alloc, &self.globals)?;
        let frame = copied_values(alloc, &self.frame)?;
        let arrays = copied_arrays(alloc, &self.arrays)?;
        let variable_arrays = copied_variables(alloc, &self.variable_arrays)?;
        let moves = copied_moves(alloc, &self.moves)?;
        Ok(State {
            globals,
            frame,
            arrays,
            variable_arrays,
            inputs: Vec::new(alloc),
            data: Vec::new(alloc),
            moves,
            search: Search::new(alloc, 0),
            fuel,
            alloc,
        })
    }
}
