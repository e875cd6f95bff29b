//! Data.
ghost use Rattle.std.specs.Prelude.{◌≡◌, ℕ, List, IfErr};
ghost use Rattle.comet_meaning.specs.Data as meaning;
ghost use Rattle.comet_meaning.specs.Declarations as declarations;
ghost use Rattle.comet_meaning.specs.Values as values;
ghost use Rattle.run_values.specs.Did.{Did, IsFault};
ghost use Rattle.run_values.specs.Views.{value_seen};
ghost use Rattle.run_values.specs.declared.stop.Stop.TheVariants.{NoMemory};
ghost use Rattle.run_outside.specs.Told.{Told};
ghost use Rattle.run_state.specs.Views.{state_seen};

use crate::state::State;
use crate::words::{behind_blanks, spelled, word_end};
use cbl_base::limits::MAX_DATA_BYTES;
use cbl_base::{Place, RunFault};
use run_values::{Stop, Value};

/// How many bytes of data are read.
const MOST_DATA: usize = MAX_DATA_BYTES;

impl State {
    /// A new input, which begins with all data. `NoMemory` where there is none for it; there is no other stop.
    #[tactic(auto, unfolding(comet_meaning::specs::Declarations::make_input))]
    pub fn make_input(&mut self) -> Result<Value, Stop>
        ensures did { (told : Told) → Did value_seen result (state_seen self.new told)
            (declarations.make_input (state_seen self.old told)) }
        ensures memory { IfErr result (λ stop. stop ≡ NoMemory) }
        ensures fuel { self.new.fuel ≡ self.old.fuel }
    {
        let number = self.inputs.len();
        self.inputs.push(0)?;
        Ok(Value::Input(number))
    }

    /// The next number of an input, which goes on behind it. `NoData` at this place exactly where no word is left, and
    /// `BadData` exactly where the next one spells no number that fits 64 bits signed, or the data is too long; there
    /// is no other stop.
    #[tactic(auto, unfolding(comet_meaning::specs::Data::next_number))]
    pub fn next_number(&mut self, at: Place, input: &Value) -> Result<Value, Stop>
        ensures did { (told : Told) → Did value_seen result (state_seen self.new told)
            (meaning.next_number at (value_seen input.now) (state_seen self.old told)) }
        ensures stop { IfErr result IsFault }
        ensures fuel { self.new.fuel ≡ self.old.fuel }
    {
        if self.data.len() > MOST_DATA {
            return Err(Stop::Fault(at, RunFault::BadData));
        }
        match input {
            Value::Input(number) => self.first_word(at, *number),
            _ => Err(Stop::Fault(at, RunFault::NoData)),
        }
    }

    /// The number of the first word that an input hasn't read yet.
    fn first_word(&mut self, at: Place, input: usize) -> Result<Value, Stop>
        ensures did { (told : Told) → Did value_seen result (state_seen self.new told)
            (meaning.first_word at (values.Input input)
            (meaning.behind_blanks (meaning.unread (state_seen self.old told) (values.Input input)))
            (state_seen self.old told)) }
        ensures stop { IfErr result IsFault }
        ensures fuel { self.new.fuel ≡ self.old.fuel }
    {
        if input >= self.inputs.len() {
            return Err(Stop::Fault(at, RunFault::NoData));
        }
        let start = behind_blanks(&self.data, self.inputs[input]);
        if start >= self.data.len() {
            return Err(Stop::Fault(at, RunFault::NoData));
        }
        let end = word_end(&self.data, start);
        match spelled(&self.data[start..end]) {
            None => Err(Stop::Fault(at, RunFault::BadData)),
            Some(number) => {
                self.inputs[input] = end;
                Ok(Value::Number(number))
            }
        }
    }
}
