//! Values that are printed.
ghost use Rattle.std.specs.Prelude.{◌≡◌, ◌≤◌, ◌++◌, ℕ, List, [], length, true, None, Err, IfErr, IfOk, OnOk};
ghost use Rattle.cbl_io.specs.Faults.{HasRisen};
ghost use Rattle.comet_meaning.specs.Cells.{cells_of};
ghost use Rattle.comet_meaning.specs.Onward.{IsFront, left_by};
ghost use Rattle.comet_meaning.specs.Printing as meaning;
ghost use Rattle.comet_meaning.specs.Printing.{cells_text};
ghost use Rattle.comet_meaning.specs.State as states;
ghost use Rattle.comet_meaning.specs.Values as values;
ghost use Rattle.run_values.specs.Did.{Did, IsFaultOrMemory};
ghost use Rattle.run_values.specs.Texts.{plain_text};
ghost use Rattle.run_values.specs.Views.{value_seen};
ghost use Rattle.run_values.specs.declared.stop.OutStop.TheVariants.{Full, Failed};
ghost use Rattle.run_values.specs.declared.stop.Stop.TheVariants.{NoMemory, Output};
ghost use Rattle.run_state.specs.Acts.{shown, shown_text, array_shown, array_text_of, array_chars, text_read};
ghost use Rattle.run_outside.specs.Shares.{is_short, share_behind};
ghost use Rattle.run_state.specs.Stops.{IsQuiet};
ghost use Rattle.run_outside.specs.Told.{Told, beside};
ghost use Rattle.run_state.specs.Views.{state_seen};

use crate::fuel::spend;
use crate::out::{print, print_number};
use crate::state::State;
use cbl_base::Place;
use run_outside::Outside;
use run_values::texts::{push_array, push_value};
use run_values::{Stop, Value};
use std::alloc::Global;

impl State {
    /// Prints a value; what can't be printed is nothing. The cells of an array are charged before, at this place, where
    /// each variable is read. `Spent` where the fuel doesn't reach for them, `NoMemory` where there is none for the text;
    /// else it stops as reading or the output does. After any stop a front of the text was printed.
    #[tactic(auto, unfolding(comet_meaning::specs::Printing::value_text, comet_meaning::specs::Printing::print))]
    pub fn print_value<O: Outside>(
        &mut self,
        out: &mut O,
        at: Place,
        value: &Value,
    ) -> Result<(), Stop>
        ensures did { Did (λ _. tt) result (state_seen self.new (O.told out.new))
            (shown at (value_seen value.now) (state_seen self.old (O.told out.old))) }
        ensures begun { IsFront (O.told out.old).printed (O.told out.new).printed }
        ensures front { IsFront (O.told out.new).printed
            (left_by (shown at (value_seen value.now)
            (state_seen self.old (O.told out.old)))).printed }
        ensures lowered { OnOk result (O.share out.new ≡
            share_behind (O.share out.old) (length
            (shown_text (state_seen self.old (O.told out.old)) (value_seen value.now)))) }
        ensures full { result ≡ Err (Output Full) →
            is_short (O.share out.old) (length
            (shown_text (state_seen self.old (O.told out.old)) (value_seen value.now))) ≡ true }
        ensures untold { O.share out.old ≡ None → O.share out.new ≡ None }
        ensures failed { result ≡ Err (Output Failed) →
            HasRisen (O.faults out.old) (O.faults out.new) }
        ensures never_falls { O.faults out.old ≤ O.faults out.new }
        ensures never_rises { self.new.fuel ≤ self.old.fuel }
    {
        match value {
            Value::Number(number) => print_number(out, number),
            Value::Array(_) => self.print_array(out, at, value),
            Value::Row(_) => self.print_array(out, at, value),
            Value::Variables(_) => self.print_array(out, at, value),
            Value::Truth(_) => print_plain(out, self.alloc, value),
            Value::Range(_) => print_plain(out, self.alloc, value),
            Value::Set(_) => print_plain(out, self.alloc, value),
            Value::Nothing => print_plain(out, self.alloc, value),
            Value::Variable(_) => print_plain(out, self.alloc, value),
            Value::Solver(_) => print_plain(out, self.alloc, value),
            Value::System { .. } => print_plain(out, self.alloc, value),
            Value::Objective { .. } => print_plain(out, self.alloc, value),
            Value::Input(_) => print_plain(out, self.alloc, value),
            Value::Distribution(_) => print_plain(out, self.alloc, value),
            Value::Selector(_) => print_plain(out, self.alloc, value),
            Value::Move(_) => print_plain(out, self.alloc, value),
            Value::Solution(_) => print_plain(out, self.alloc, value),
        }
    }

    /// Prints an array, whose cells are charged before, at this place, where each variable is read.
    #[tactic(auto, unfolding(comet_meaning::specs::Printing::print))]
    fn print_array<O: Outside>(&mut self, out: &mut O, at: Place, array: &Value) -> Result<(), Stop>
        ensures did { Did (λ _. tt) result (state_seen self.new (O.told out.new))
            (array_shown at (value_seen array.now) (state_seen self.old (O.told out.old))) }
        ensures begun { IsFront (O.told out.old).printed (O.told out.new).printed }
        ensures front { IsFront (O.told out.new).printed
            (left_by (array_shown at (value_seen array.now)
            (state_seen self.old (O.told out.old)))).printed }
        ensures lowered { OnOk result (O.share out.new ≡
            share_behind (O.share out.old) (length
            (array_chars (state_seen self.old (O.told out.old)) (value_seen array.now)))) }
        ensures full { result ≡ Err (Output Full) →
            is_short (O.share out.old) (length
            (array_chars (state_seen self.old (O.told out.old)) (value_seen array.now))) ≡ true }
        ensures untold { O.share out.old ≡ None → O.share out.new ≡ None }
        ensures failed { result ≡ Err (Output Failed) →
            HasRisen (O.faults out.old) (O.faults out.new) }
        ensures never_falls { O.faults out.old ≤ O.faults out.new }
        ensures never_rises { self.new.fuel ≤ self.old.fuel }
    {
        let text = self.array_text(out, at, array)?;
        print(out, &text)
    }

    /// The text of an array, whose cells are charged before, at this place, where each variable is read.
    fn array_text<O: Outside>(&mut self, out: &O, at: Place, array: &Value) -> Result<Vec<u8>, Stop>
        ensures did { Did (λ text. text.items) result (state_seen self.new (O.told out.now))
            (array_text_of at (value_seen array.now) (state_seen self.old (O.told out.now))) }
        ensures text { IfOk result (λ text.
            text.items ≡ array_chars (state_seen self.old (O.told out.now))
            (value_seen array.now)) }
        ensures stop { IfErr result IsQuiet }
        ensures never_rises { self.new.fuel ≤ self.old.fuel }
    {
        let cells = self.size(array);
        spend(&mut self.fuel, cells as u64, at)?;
        self.read_text(out, at, array)
    }

    /// The text of an array, of which each variable is read at this place.
    fn read_text<O: Outside>(&self, out: &O, at: Place, array: &Value) -> Result<Vec<u8>, Stop>
        ensures did { Did (λ text. text.items) result (state_seen self.now (O.told out.now))
            (text_read at (value_seen array.now) (state_seen self.now (O.told out.now))) }
        ensures stop { IfErr result IsFaultOrMemory }
    {
        match array {
            Value::Variables(number) => self.variables_text(out, at, *number),
            _ => self.numbers_text(array),
        }
    }

    /// The text of an array of variables, which are read at this place.
    fn variables_text<O: Outside>(&self, out: &O, at: Place, array: usize) -> Result<Vec<u8>, Stop>
        ensures did { Did (λ text. text.items) result (state_seen self.now (O.told out.now))
            (text_read at (values.Variables array) (state_seen self.now (O.told out.now))) }
        ensures stop { IfErr result IsFaultOrMemory }
    {
        let values = self.read_each(out, at, self.variables(array))?;
        let mut text = Vec::new(self.alloc);
        push_array(&mut text, self.variables_extent(array), &values)?;
        Ok(text)
    }

    /// The text of an array of numbers. `NoMemory` where there is none for it; there is no other stop.
    fn numbers_text(&self, array: &Value) -> Result<Vec<u8>, Stop>
        ensures text { (told : Told) → IfOk result (λ text.
            text.items ≡ cells_text (cells_of (state_seen self.now told) (value_seen array.now))) }
        ensures memory { IfErr result (λ stop. stop ≡ NoMemory) }
    {
        let mut text = Vec::new(self.alloc);
        push_array(&mut text, self.numbers_extent(array), self.numbers(array))?;
        Ok(text)
    }
}

/// Prints a value that is no array. `NoMemory` where there is none for its text; else it stops as the output does.
#[tactic(auto, unfolding(comet_meaning::specs::Printing::print))]
fn print_plain<O: Outside>(out: &mut O, alloc: Global, value: &Value) -> Result<(), Stop>
    ensures did { (s : states.State) →
        Did (λ _. tt) result (beside (O.told out.new) s)
        (meaning.print (plain_text (value_seen value.now)) (beside (O.told out.old) s)) }
    ensures begun { IsFront (O.told out.old).printed (O.told out.new).printed }
    ensures front { IsFront (O.told out.new).printed
        ((O.told out.old).printed ++ plain_text (value_seen value.now)) }
    ensures lowered { OnOk result (O.share out.new ≡
        share_behind (O.share out.old) (length (plain_text (value_seen value.now)))) }
    ensures full { result ≡ Err (Output Full) →
        is_short (O.share out.old) (length (plain_text (value_seen value.now))) ≡ true }
    ensures untold { O.share out.old ≡ None → O.share out.new ≡ None }
    ensures failed { result ≡ Err (Output Failed) → HasRisen (O.faults out.old) (O.faults out.new) }
    ensures never_falls { O.faults out.old ≤ O.faults out.new }
{
    let mut text = Vec::new(alloc);
    push_value(&mut text, value)?;
    print(out, &text)
}
