//! The state of a run.
ghost use Rattle.std.specs.Prelude.{◌≡◌, List};
ghost use Rattle.comet_meaning.specs.State.{first_state};
ghost use Rattle.comet_meaning.specs.Users.{User};
ghost use Rattle.run_outside.specs.Told.{begun_with};
ghost use Rattle.run_state.specs.Views.{state_seen};

use run_search::{KeptMove, Search};
use run_values::{Cells, Value, VariableCells};
use std::alloc::Global;

/// The state of a run.
#[derive(Drop)]
pub struct State {
    pub(crate) globals: Vec<Value>,
    pub frame: Vec<Value>,
    pub(crate) arrays: Vec<Cells>,
    pub(crate) variable_arrays: Vec<VariableCells>,
    /// For each `InputFile` how many bytes of the data it has read.
    pub(crate) inputs: Vec<usize>,
    pub(crate) data: Vec<u8>,
    /// What each `MinNeighborSelector` keeps.
    pub(crate) moves: Vec<Option<KeptMove>>,
    pub search: Search,
    pub fuel: u64,
    pub alloc: Global,
}

impl State {
    /// The state at the start of a run, with this seed, this fuel and this data.
    #[tactic(auto, unfolding(run_search::specs::Searches::moves_seen))]
    pub fn new(alloc: Global, seed: u64, fuel: u64, text: Vec<u8>) -> State
        ensures { (users : List User) → state_seen result (begun_with users) ≡
            first_state seed fuel text.items users }
    {
        State {
            globals: Vec::new(alloc),
            frame: Vec::new(alloc),
            arrays: Vec::new(alloc),
            variable_arrays: Vec::new(alloc),
            inputs: Vec::new(alloc),
            data: text,
            moves: Vec::new(alloc),
            search: Search::new(alloc, seed),
            fuel,
            alloc,
        }
    }
}
