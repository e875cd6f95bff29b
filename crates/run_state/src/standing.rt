//! What values stand for in terms.
ghost use Rattle.std.specs.Prelude.{◌≡◌, ℕ, List, [], IfErr, IfOk, map};
ghost use Rattle.comet_meaning.specs.Cells.{cells_of, variables_of};
ghost use Rattle.comet_meaning.specs.Terms as meaning;
ghost use Rattle.comet_meaning.specs.Terms.{constants, several_of, single_of, term_extent, term_row, variable_terms};
ghost use Rattle.comet_meaning.specs.Values as values;
ghost use Rattle.comet_meaning.specs.OfModelView.Building as building;
ghost use Rattle.run_values.specs.Did.{Did};
ghost use Rattle.run_values.specs.Views.{extent_seen, value_seen};
ghost use Rattle.run_values.specs.declared.stop.Stop.TheVariants.{NoMemory};
ghost use Rattle.run_state.specs.InTerms.{in_term_seen, term_cells_seen};
ghost use Rattle.run_outside.specs.Told.{Told};
ghost use Rattle.run_state.specs.Views.{state_seen};

use crate::state::State;
use cbl_base::VarId;
use run_outside::solvers_of_runs::Built;
use run_values::{Bounds, Extent, Stop, Value};
use std::alloc::Global;

/// What an expression stands for in a term: a term, or an array of terms.
#[derive(Drop)]
pub enum InTerm {
    Single(Built),
    Several(TermCells),
}

/// An array of terms with one dimension or two, row by row.
#[derive(Drop)]
pub struct TermCells {
    pub rows: Bounds,
    pub columns: Option<Bounds>,
    pub terms: Vec<Built>,
}

impl InTerm {
    /// The term, and 0 of an array.
    pub fn single(self) -> Built
        ensures { result ≡ single_of (in_term_seen self) }
    {
        match self {
            InTerm::Single(term) => term,
            InTerm::Several(_) => Built::constant(0),
        }
    }

    /// The array, and none of a term.
    pub fn several(self, alloc: Global) -> TermCells
        ensures { term_cells_seen result ≡ several_of (in_term_seen self) }
    {
        match self {
            InTerm::Several(cells) => cells,
            InTerm::Single(_) => TermCells::empty(alloc),
        }
    }
}

impl TermCells {
    /// An array of no terms.
    fn empty(alloc: Global) -> TermCells
        ensures { term_cells_seen result ≡ term_row [] }
    {
        let none = Extent::row(0);
        TermCells {
            rows: none.rows,
            columns: none.columns,
            terms: Vec::new(alloc),
        }
    }

    /// Terms in a row, as an array from 0.
    pub fn row(terms: Vec<Built>) -> TermCells
        ensures { term_cells_seen result ≡ term_row terms.items }
    {
        let extent = Extent::row(terms.len());
        TermCells {
            rows: extent.rows,
            columns: extent.columns,
            terms,
        }
    }

    /// The bounds of its indices.
    pub fn extent(&self) -> Extent
        ensures { extent_seen result ≡ term_extent (term_cells_seen self.now) }
    {
        Extent {
            rows: self.rows,
            columns: self.columns,
        }
    }
}

impl State {
    /// What a value stands for in a term: a variable for itself, a set and a number for a constant, and an array for that
    /// of its cells. `NoMemory` where there is none for an array; there is no other stop.
    #[tactic(auto, unfolding(comet_meaning::specs::Terms::standing))]
    pub fn standing(&self, value: Value) -> Result<InTerm, Stop>
        ensures did { (told : Told) → Did in_term_seen result (state_seen self.now told)
            (meaning.standing (value_seen value) (state_seen self.now told)) }
        ensures memory { IfErr result (λ stop. stop ≡ NoMemory) }
    {
        match value {
            Value::Variable(variable) => Ok(InTerm::Single(Built::variable(variable))),
            Value::Set(members) => Ok(InTerm::Single(Built::constant_set(members))),
            Value::Variables(array) => self.standing_variables(array),
            Value::Array(array) => self.standing_numbers(&Value::Array(array)),
            Value::Row(numbers) => self.standing_numbers(&Value::Row(numbers)),
            value => Ok(InTerm::Single(Built::constant(value.number()))),
        }
    }

    /// An array of numbers in a term.
    fn standing_numbers(&self, array: &Value) -> Result<InTerm, Stop>
        ensures same { (told : Told) → IfOk result (λ t.
            in_term_seen t ≡ meaning.Several
            (constants (cells_of (state_seen self.now told) (value_seen array.now)))) }
        ensures memory { IfErr result (λ stop. stop ≡ NoMemory) }
    {
        let terms = constants_of(self.alloc, self.numbers(array))?;
        let extent = self.numbers_extent(array);
        Ok(InTerm::Several(TermCells {
            rows: extent.rows,
            columns: extent.columns,
            terms,
        }))
    }

    /// An array of variables in a term.
    fn standing_variables(&self, array: usize) -> Result<InTerm, Stop>
        ensures same { (told : Told) → IfOk result (λ t.
            in_term_seen t ≡ meaning.Several
            (variable_terms (variables_of (state_seen self.now told) (values.Variables array)))) }
        ensures memory { IfErr result (λ stop. stop ≡ NoMemory) }
    {
        let terms = variables_of(self.alloc, self.variables(array))?;
        let extent = self.variables_extent(array);
        Ok(InTerm::Several(TermCells {
            rows: extent.rows,
            columns: extent.columns,
            terms,
        }))
    }
}

/// The numbers as terms.
fn constants_of(alloc: Global, numbers: &[i64]) -> Result<Vec<Built>, Stop>
    ensures terms { IfOk result (λ terms. terms.items ≡ map building.constant numbers.now) }
    ensures memory { IfErr result (λ stop. stop ≡ NoMemory) }
{
    let mut terms = Vec::new(alloc);
    for number in numbers {
        terms.push(Built::constant(*number))?;
    }
    Ok(terms)
}

/// The variables as terms.
fn variables_of(alloc: Global, variables: &[VarId]) -> Result<Vec<Built>, Stop>
    ensures terms { IfOk result (λ terms. terms.items ≡ map building.variable variables.now) }
    ensures memory { IfErr result (λ stop. stop ≡ NoMemory) }
{
    let mut terms = Vec::new(alloc);
    for variable in variables {
        terms.push(Built::variable(*variable))?;
    }
    Ok(terms)
}
