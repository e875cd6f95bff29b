//! Fuel.
ghost use Rattle.std.specs.Prelude.{◌≡◌, ◌≤◌, ◌+◌, ℕ, List, IfErr, OnOk};
ghost use Rattle.comet_meaning.specs.Outcome.{charge};
ghost use Rattle.comet_meaning.specs.State as states;
ghost use Rattle.run_values.specs.Did.{Did};
ghost use Rattle.run_values.specs.declared.stop.Stop.TheVariants.{Spent};
ghost use Rattle.run_outside.specs.Told.{Told};
ghost use Rattle.run_state.specs.Views.{state_seen};

use crate::state::State;
use cbl_base::Place;
use run_values::Stop;

impl State {
    /// Spends units of fuel. `Spent` at this place exactly where fewer are left, and then none is spent; there is no
    /// other stop.
    #[inline]
    pub fn charge(&mut self, units: u64, at: Place) -> Result<(), Stop>
        ensures did { (told : Told) → Did (λ _.
            tt) result (state_seen self.new told) (charge units at (state_seen self.old told)) }
        ensures stop { IfErr result (λ stop. stop ≡ Spent at) }
        ensures spent { OnOk result (self.new.fuel + units ≡ self.old.fuel) }
        ensures never_rises { self.new.fuel ≤ self.old.fuel }
    {
        spend(&mut self.fuel, units, at)
    }
}

/// Spends units of the fuel of a state, which is left as it is for the rest.
#[tactic(auto, unfolding(comet_meaning::specs::Outcome::charge))]
pub(crate) fn spend(fuel: &mut u64, units: u64, at: Place) -> Result<(), Stop>
    ensures did { (s : states.State) → s.fuel ≡ fuel.old →
        Did (λ _. tt) result (record s { fuel = fuel.new }) (charge units at s) }
    ensures stop { IfErr result (λ stop. stop ≡ Spent at) }
    ensures spent { OnOk result (fuel.new + units ≡ fuel.old) }
    ensures never_rises { fuel.new ≤ fuel.old }
{
    if units <= *fuel {
        *fuel -= units;
        Ok(())
    } else {
        Err(Stop::Spent(at))
    }
}
