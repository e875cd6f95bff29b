//! What all variables come to. Each defined variable is evaluated once, after those that it depends on.
ghost use Rattle.std.specs.Prelude.{◌≡◌, ◌<◌, ℕ, true, IsTrue, IfOk, IfSome, OnOk, IsSome, Option, Some, None, is_some, replicate, length, map, slice_get, slice_set};
ghost use Rattle.std.specs.List.{Contains, list_all};
ghost use Rattle.term_model.specs.Definitions.{definition_of, named_by, DependsOn, IsAcyclic};
ghost use Rattle.cbl_base.specs.Inputs.{kind_of};
ghost use Rattle.term_model.specs.Kinds.{kinds_in};
ghost use Rattle.std.specs.Option.{option_map};
ghost use Rattle.cbl_base.specs.declared.input.Input.TheVariants.{Int};
ghost use Rattle.model_values.specs.Outcomes.{HasKinds, Outcome, env_of};
ghost use Rattle.model_values.specs.Settling.{is_known, IsRight, KeepsKnown, AreTables};
ghost use Rattle.term_model.specs.Users.{user_rules};
ghost use Rattle.model_values.specs.VarOutcomes.{outcome_of_var};
ghost use Rattle.term_model.specs.Wellformed.{IsWellFormed, HasDefinedSets};

use crate::evaluation::{Outcome, Setting, term_outcome};
use cbl_base::{Input, NoMemory};
use operation_values::UserValues;
use std::alloc::Global;
use term_model::{Definition, Model, definitions_of, dependencies_of, order_of};

/// Whether the outcome of a variable is known.
fn is_known(cells: &[Option<Outcome>], index: usize) -> bool
    ensures { result ≡ is_known cells.now index }
{
    match cells.get(index) {
        Some(cell) => cell.is_some(),
        None => false,
    }
}

/// Whether the outcomes of all these variables are known.
fn are_known(cells: &[Option<Outcome>], indices: &[u32]) -> bool
    ensures { result ≡ list_all (is_known cells.now) indices.now }
{
    indices.iter().all(|index| is_known(cells, *index as usize))
}

/// What the outcomes of a model's variables are computed from: who computes the users' constraints, the model,
/// the assignment, and for each variable its definition and the variables that this names.
#[derive(Drop)]
pub struct Tables<'a, U> {
    pub alloc: Global,
    pub users: &'a U,
    pub model: &'a Model,
    pub assignment: &'a [i64],
    pub definitions: Vec<Option<u32>>,
    pub named: Vec<Vec<u32>>,
}

/// What a free variable comes to: the number that the assignment gives it.
fn assigned(assignment: &[i64], index: usize) -> Outcome
    ensures { result ≡ option_map (λ z. Int z) (slice_get assignment.now index) }
{
    let number = assignment.get(index)?;
    Some(Input::Int(*number))
}

/// The number of the definition of a variable.
fn number_of<U: UserValues>(tables: &Tables<'_, U>, index: usize) -> Option<u32>
    requires tables { AreTables tables.now.model.now tables.now.definitions.items
        (map (λ names. names.items) tables.now.named.items) }
    requires within { index < length tables.now.model.now.vars.items }
    ensures { definition_of tables.now.model.now index ≡ result }
{
    tables.definitions[index]
}

/// The definition with a number.
fn definition_at(model: &Model, number: u32) -> &Definition
    requires { IsSome (slice_get model.now.defs.items number) }
    ensures { slice_get model.now.defs.items number ≡ Some result.now }
{
    &model.defs[number as usize]
}

/// Whether all variables are known on which a variable depends.
#[tactic(auto, using(crate::proofs::VarLaws::names_of_var, crate::proofs::VarLaws::lists_within))]
fn is_ready<U: UserValues>(tables: &Tables<'_, U>, cells: &[Option<Outcome>], index: usize) -> bool
    requires tables { AreTables tables.now.model.now tables.now.definitions.items
        (map (λ names. names.items) tables.now.named.items) }
    requires within { index < length tables.now.model.now.vars.items }
    ensures { result ≡ list_all (is_known cells.now)
        (named_by tables.now.model.now.defs.items (definition_of tables.now.model.now index)) }
{
    are_known(cells, &tables.named[index])
}

/// The outcome of a variable that depends on known ones alone.
#[tactic(auto, using(crate::proofs::VarLaws::free_outcome, term_model::proofs::VarLaws::entry_there, term_model::proofs::VarLaws::definition_kinded, term_model::proofs::VarLaws::kind_of_definition, crate::proofs::VarLaws::known_term))]
fn outcome_by<U: UserValues>(
    tables: &Tables<'_, U>,
    cells: &[Option<Outcome>],
    index: usize,
) -> Result<Outcome, NoMemory>
    requires well_formed { IsWellFormed tables.now.model.now }
    requires sets { HasDefinedSets tables.now.model.now }
    requires acyclic { IsAcyclic tables.now.model.now }
    requires assigned { length tables.now.assignment.now ≡ length tables.now.model.now.vars.items }
    requires tables { AreTables tables.now.model.now tables.now.definitions.items
        (map (λ names. names.items) tables.now.named.items) }
    requires right { IsRight (user_rules (U.viol_of tables.now.users.now)
        (U.viol_at tables.now.users.now)) tables.now.model.now tables.now.assignment.now cells.now }
    requires within { index < length tables.now.model.now.vars.items }
    requires ready { (d : ℕ) → DependsOn tables.now.model.now index d →
        is_known cells.now d ≡ true }
    ensures outcome { IfOk result (λ o.
        o ≡ outcome_of_var (user_rules (U.viol_of tables.now.users.now)
        (U.viol_at tables.now.users.now)) tables.now.model.now tables.now.assignment.now index) }
    ensures kind { IfOk result (λ o. IfSome o (λ x. kinds_in tables.now.model.now.vars.items index ≡
        Some (kind_of x))) }
{
    let Some(number) = number_of(tables, index) else {
        return Ok(assigned(tables.assignment, index));
    };
    let definition = definition_at(tables.model, number);
    let setting = Setting {
        alloc: tables.alloc,
        users: tables.users,
        model: tables.model,
        cells,
    };
    term_outcome(&setting, &definition.term)
}

/// Notes the outcome of a variable.
fn learn(cells: &mut Vec<Option<Outcome>>, index: usize, outcome: Outcome)
    requires { index < length cells.old.items }
    ensures { cells.new.items ≡ slice_set cells.old.items index (Some outcome) }
{
    cells[index] = Some(outcome);
}

/// Finds the outcome of a variable, unless it is known or one is missing that it depends on.
#[tactic(auto, using(crate::proofs::VarLaws::all_known, crate::proofs::VarLaws::known_all, crate::proofs::VarLaws::right_set, crate::proofs::VarLaws::kept_set, crate::proofs::VarLaws::known_set))]
fn settle<U: UserValues>(
    tables: &Tables<'_, U>,
    cells: &mut Vec<Option<Outcome>>,
    index: usize,
) -> Result<(), NoMemory>
    requires well_formed { IsWellFormed tables.now.model.now }
    requires sets { HasDefinedSets tables.now.model.now }
    requires acyclic { IsAcyclic tables.now.model.now }
    requires assigned { length tables.now.assignment.now ≡ length tables.now.model.now.vars.items }
    requires tables { AreTables tables.now.model.now tables.now.definitions.items
        (map (λ names. names.items) tables.now.named.items) }
    requires right { IsRight (user_rules (U.viol_of tables.now.users.now) (U.viol_at tables.now.users.now)) tables.now.model.now tables.now.assignment.now cells.old.items }
    requires within { index < length tables.now.model.now.vars.items }
    ensures right { OnOk result (IsRight (user_rules (U.viol_of tables.now.users.now) (U.viol_at tables.now.users.now)) tables.now.model.now tables.now.assignment.now cells.new.items) }
    ensures kept { OnOk result (KeepsKnown cells.old.items cells.new.items) }
    ensures settled { OnOk result (((d : ℕ) → DependsOn tables.now.model.now index d →
        is_known cells.old.items d ≡ true) → is_known cells.new.items index ≡ true) }
{
    if is_known(cells, index) {
        return Ok(());
    }
    if !is_ready(tables, cells, index) {
        return Ok(());
    }
    let outcome = outcome_by(tables, cells, index)?;
    learn(cells, index, outcome);
    Ok(())
}

/// Settles variables in a given order.
fn settle_in_order<U: UserValues>(
    tables: &Tables<'_, U>,
    cells: &mut Vec<Option<Outcome>>,
    order: &[usize],
) -> Result<(), NoMemory>
    requires well_formed { IsWellFormed tables.now.model.now }
    requires sets { HasDefinedSets tables.now.model.now }
    requires acyclic { IsAcyclic tables.now.model.now }
    requires assigned { length tables.now.assignment.now ≡ length tables.now.model.now.vars.items }
    requires tables { AreTables tables.now.model.now tables.now.definitions.items
        (map (λ names. names.items) tables.now.named.items) }
    requires right { IsRight (user_rules (U.viol_of tables.now.users.now) (U.viol_at tables.now.users.now)) tables.now.model.now tables.now.assignment.now cells.old.items }
    ensures right { OnOk result (IsRight (user_rules (U.viol_of tables.now.users.now) (U.viol_at tables.now.users.now)) tables.now.model.now tables.now.assignment.now cells.new.items) }
{
    for index in order {
        if *index < tables.model.vars.len() {
            settle(tables, cells, *index)?;
        }
    }
    Ok(())
}

/// Settles each variable once, in order of declaration.
fn settle_each<U: UserValues>(
    tables: &Tables<'_, U>,
    cells: &mut Vec<Option<Outcome>>,
) -> Result<(), NoMemory>
    requires well_formed { IsWellFormed tables.now.model.now }
    requires sets { HasDefinedSets tables.now.model.now }
    requires acyclic { IsAcyclic tables.now.model.now }
    requires assigned { length tables.now.assignment.now ≡ length tables.now.model.now.vars.items }
    requires tables { AreTables tables.now.model.now tables.now.definitions.items
        (map (λ names. names.items) tables.now.named.items) }
    requires right { IsRight (user_rules (U.viol_of tables.now.users.now) (U.viol_at tables.now.users.now)) tables.now.model.now tables.now.assignment.now cells.old.items }
    ensures right { OnOk result (IsRight (user_rules (U.viol_of tables.now.users.now) (U.viol_at tables.now.users.now)) tables.now.model.now tables.now.assignment.now cells.new.items) }
    ensures settled { OnOk result ((i : ℕ) → i < length tables.now.model.now.vars.items →
        ((d : ℕ) → DependsOn tables.now.model.now i d → is_known cells.old.items d ≡ true) →
        is_known cells.new.items i ≡ true) }
{
    for index in 0..tables.model.vars.len() {
        settle(tables, cells, index)?;
    }
    Ok(())
}

/// Whether the outcomes of all variables are known.
fn are_all_known(cells: &[Option<Outcome>]) -> bool
    ensures { result ≡ list_all is_some cells.now }
{
    cells.iter().all(|cell| cell.is_some())
}

/// No outcome is known.
fn none_known(alloc: Global, count: usize) -> Result<Vec<Option<Outcome>>, NoMemory>
    ensures { IfOk result (λ v. v.items ≡ replicate count None) }
{
    let mut cells = Vec::new(alloc);
    for _cell in 0..count {
        cells.push(None)?;
    }
    Ok(cells)
}

/// The tables of a model and an assignment.
pub fn tables_of<'a, U>(
    alloc: Global,
    users: &'a U,
    model: &'a Model,
    assignment: &'a [i64],
) -> Result<Tables<'a, U>, NoMemory>
    ensures same { IfOk result (λ t. (t.users.now ≡ users.now) × (t.model.now ≡ model.now) ×
        (t.assignment.now ≡ assignment.now)) }
    ensures tables { IfOk result (λ t.
        AreTables model.now t.definitions.items (map (λ names. names.items) t.named.items)) }
{
    let definitions = definitions_of(alloc, model)?;
    let named = dependencies_of(alloc, &model.defs, &definitions)?;
    Ok(Tables {
        alloc,
        users,
        model,
        assignment,
        definitions,
        named,
    })
}

/// What all variables come to. The first pass goes in an order that puts each variable behind those that
/// it depends on, so that no other is needed.
#[tactic(auto, using(crate::proofs::Settled::right_start, crate::proofs::Settled::settled_some))]
pub fn outcomes_of<U: UserValues>(tables: &Tables<'_, U>) -> Result<Vec<Option<Outcome>>, NoMemory>
    requires well_formed { IsWellFormed tables.now.model.now }
    requires sets { HasDefinedSets tables.now.model.now }
    requires acyclic { IsAcyclic tables.now.model.now }
    requires assigned { length tables.now.assignment.now ≡ length tables.now.model.now.vars.items }
    requires tables { AreTables tables.now.model.now tables.now.definitions.items
        (map (λ names. names.items) tables.now.named.items) }
    ensures env { IfOk result (λ v. env_of v.items ≡
        outcome_of_var (user_rules (U.viol_of tables.now.users.now)
        (U.viol_at tables.now.users.now)) tables.now.model.now tables.now.assignment.now) }
    ensures kinds { IfOk result (λ v. HasKinds (kinds_in tables.now.model.now.vars.items)
        (env_of v.items)) }
    ensures count { IfOk result (λ v. length v.items ≡ length tables.now.model.now.vars.items) }
{
    let count = tables.model.vars.len();
    let mut cells = none_known(tables.alloc, count)?;
    settle_in_order(tables, &mut cells, &order_of(tables.alloc, &tables.named)?)?;
    for _round in 0..count {
        if are_all_known(&cells) {
            return Ok(cells);
        }
        settle_each(tables, &mut cells)?;
    }
    Ok(cells)
}
