//! What stands of a run.
ghost use Rattle.std.specs.Prelude.{◌≡◌, ℕ, List, [], IfErr, IfOk};
ghost use Rattle.run_state.specs.OfCometMeaning.State.{first_state};
ghost use Rattle.run_standing.specs.Seen.{plain_with, standing_seen};
ghost use Rattle.run_state.specs.OfRunValues.declared.stop.Stop.TheVariants.{NoMemory};

use node_kinds::SolverNode;
use run_state::State;
use run_state::outside_of_runs::HandedIn;
use run_state::solvers_of_runs::Solvers;
use run_state::values_of_runs::Stop;
use std::alloc::Global;

/// What stands of a run before, between and behind its statements, but for what was printed: what the names hold, with the
/// arrays, the data, the fuel and what a search keeps, the solvers, and the users' constraints.
#[derive(Drop)]
pub struct Standing<N: SolverNode> {
    pub state: State,
    pub solvers: Solvers<N>,
    pub users: Vec<HandedIn<N>>,
}

impl<N: SolverNode> Standing<N> {
    /// The start of a run, with this seed, this fuel, this data and these users' constraints.
    pub fn new(
        alloc: Global,
        seed: u64,
        fuel: u64,
        text: Vec<u8>,
        users: Vec<HandedIn<N>>,
    ) -> Standing<N>
        ensures { standing_seen result [] ≡ first_state seed fuel text.items users.items }
    {
        Standing {
            state: State::new(alloc, seed, fuel, text),
            solvers: Solvers::new(alloc),
            users,
        }
    }

    /// A copy with this fuel, and without the data, its inputs, the users' constraints, and what no pure expression sees of a
    /// search. `NoMemory` where there is none for it, and so far where a solver stands; there is no other stop.
    pub fn without_data(&self, fuel: u64) -> Result<Standing<N>, Stop>
        ensures same { (printed : List ℕ) →
            IfOk result (λ copy. standing_seen copy printed ≡
            plain_with fuel (standing_seen self.now printed)) }
        ensures memory { IfErr result (λ stop. stop ≡ NoMemory) }
    {
        let state = self.state.without_data(fuel)?;
        let solvers = self.solvers.copied(self.state.alloc)?;
        let users = Vec::new(self.state.alloc);
        Ok(Standing {
            state,
            solvers,
            users,
        })
    }
}
