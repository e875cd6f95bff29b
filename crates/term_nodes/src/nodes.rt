//! Operations of terms that have their operands.
ghost use Rattle.std.specs.Prelude.{◌≡◌, ℕ, List, [], ◌∷◌, ◌++◌, IfErr, IfOk, pos, slice_index_or};
ghost use Rattle.comet_meaning.specs.Cells.{found_at};
ghost use Rattle.comet_meaning.specs.Outcome.{give, then_do};
ghost use Rattle.comet_meaning.specs.State as states;
ghost use Rattle.comet_meaning.specs.TermForms as forms;
ghost use Rattle.comet_meaning.specs.TermForms.{chain_op, grid_op, index_op, node_form, unary_op};
ghost use Rattle.comet_meaning.specs.Terms.{Several, Single, term_at, term_row};
ghost use Rattle.comet_meaning.specs.Values.{size_of};
ghost use Rattle.comet_meaning.specs.OfModelView.Building.{constant};
ghost use Rattle.run_steps.specs.OfRunState.InTerms.{in_term_seen, term_cells_seen};
ghost use Rattle.run_steps.specs.OfRunOutside.Told.{Told};
ghost use Rattle.run_steps.specs.OfRunState.Views.{state_seen};
ghost use Rattle.run_steps.specs.Does.{Does};
ghost use Rattle.run_steps.specs.Following.{Follows};
ghost use Rattle.run_values.specs.Views.{bounds_seen};
ghost use Rattle.run_values.specs.declared.stop.Stop.TheVariants.{NoMemory};
ghost use Rattle.term_nodes.specs.Steps.{called_node, compared, count_node, element_node, grid_node, joined, picked, picked_twice, plane_op, unary_node};

use cbl_base::{Place, RunFault};
use cbl_operations::{BinaryOp, NaryOp, Op, TwoSetsOp, UnaryOp};
use checked_tree::Builtin;
use comet_syntax::tree::{ChainOperator, Comparison, UnaryOperator};
use run_steps::solvers_of_runs::Built;
use run_steps::state_of_runs::{InTerm, State, TermCells};
use run_values::{Bounds, Stop};
use std::alloc::Global;

/// An operation of these terms, at a place. `TooMany` term nodes there exactly where it is deeper than a term may be.
pub fn node_of(at: Place, op: Op, terms: Vec<Built>) -> Result<Built, Stop>
    ensures did { (s : states.State) → Does (λ t. t) result s (node_form at op terms.items s) }
{
    Built::node(at, op, terms)
}

/// The same of one term.
pub fn node_of_one(alloc: Global, at: Place, op: Op, term: Built) -> Result<Built, Stop>
    ensures did { (s : states.State) → Does (λ t. t) result s (node_form at op (term ∷ []) s) }
{
    let mut terms = Vec::new(alloc);
    terms.push(term)?;
    node_of(at, op, terms)
}

/// The same of two.
pub fn node_of_two(
    alloc: Global,
    at: Place,
    op: Op,
    first: Built,
    second: Built,
) -> Result<Built, Stop>
    ensures did { (s : states.State) →
        Does (λ t. t) result s (node_form at op (first ∷ second ∷ []) s) }
{
    let mut terms = Vec::new(alloc);
    terms.push(first)?;
    terms.push(second)?;
    node_of(at, op, terms)
}

/// A term before others. `NoMemory` where there is none for it; there is no other stop.
fn before(first: Built, terms: Vec<Built>) -> Result<Vec<Built>, Stop>
    ensures terms { IfOk result (λ all. all.items ≡ first ∷ terms.items) }
    ensures memory { IfErr result (λ stop. stop ≡ NoMemory) }
{
    let mut all = terms;
    all.insert(0, first)?;
    Ok(all)
}

/// A term behind others. `NoMemory` where there is none for it; there is no other stop.
fn behind(terms: Vec<Built>, last: Built) -> Result<Vec<Built>, Stop>
    ensures terms { IfOk result (λ all. all.items ≡ terms.items ++ last ∷ []) }
    ensures memory { IfErr result (λ stop. stop ≡ NoMemory) }
{
    let mut all = terms;
    all.push(last)?;
    Ok(all)
}

/// The term of 0.
pub fn zero() -> InTerm
    ensures { in_term_seen result ≡ Single (constant (pos 0)) }
{
    InTerm::Single(Built::constant(0))
}

/// What a part stands for that is one term.
pub fn as_in_term(term: Result<Built, Stop>) -> Result<InTerm, Stop>
    ensures did { (s : states.State) →
        Follows (λ t. t) in_term_seen term result s s (λ t. give (Single t)) }
{
    match term {
        Err(stop) => Err(stop),
        Ok(term) => Ok(InTerm::Single(term)),
    }
}

/// Terms in a row, as an array from 0.
pub fn as_row(terms: Result<Vec<Built>, Stop>) -> Result<InTerm, Stop>
    ensures did { (s : states.State) →
        Follows (λ terms. terms.items) in_term_seen terms result s s (λ ts.
        give (Several (term_row ts))) }
{
    match terms {
        Err(stop) => Err(stop),
        Ok(terms) => Ok(InTerm::Several(TermCells::row(terms))),
    }
}

/// `-e` and `!e`, of the operand's term.
pub fn unary_of(
    alloc: Global,
    at: Place,
    operator: UnaryOperator,
    operand: Result<Built, Stop>,
) -> Result<Built, Stop>
    ensures did { (s : states.State) →
        Follows (λ t. t) (λ t. t) operand result s s (unary_node at operator) }
{
    match operand {
        Err(stop) => Err(stop),
        Ok(operand) => node_of_one(alloc, at, Op::Unary(unary_operation(operator)), operand),
    }
}

/// The operation of an operator.
fn unary_operation(operator: UnaryOperator) -> UnaryOp
    ensures { result ≡ unary_op operator }
{
    match operator {
        UnaryOperator::Negative => UnaryOp::Neg,
        UnaryOperator::Not => UnaryOp::Not,
    }
}

/// `a == b` and its like, of both terms: `>` and `>=` are `<` and `<=` of the sides exchanged.
fn comparison_of(
    alloc: Global,
    at: Place,
    comparison: Comparison,
    left: Built,
    right: Built,
) -> Result<Built, Stop>
    ensures did { (s : states.State) →
        Does (λ t. t) result s (compared at comparison left right s) }
{
    match comparison {
        Comparison::Equal => node_of_two(alloc, at, Op::Binary(BinaryOp::Eq), left, right),
        Comparison::NotEqual => node_of_two(alloc, at, Op::Binary(BinaryOp::Ne), left, right),
        Comparison::Less => node_of_two(alloc, at, Op::Binary(BinaryOp::Lt), left, right),
        Comparison::LessEqual => node_of_two(alloc, at, Op::Binary(BinaryOp::Le), left, right),
        Comparison::Greater => node_of_two(alloc, at, Op::Binary(BinaryOp::Lt), right, left),
        Comparison::GreaterEqual => node_of_two(alloc, at, Op::Binary(BinaryOp::Le), right, left),
    }
}

/// The same with the right one's answer.
pub fn compare_with(
    alloc: Global,
    at: Place,
    comparison: Comparison,
    left: Built,
    right: Result<Built, Stop>,
) -> Result<Built, Stop>
    ensures did { (s : states.State) →
        Follows (λ t. t) (λ t. t) right result s s (compared at comparison left) }
{
    match right {
        Err(stop) => Err(stop),
        Ok(right) => comparison_of(alloc, at, comparison, left, right),
    }
}

/// The operation of an operator of a chain.
fn chain_operation(operator: ChainOperator) -> Op
    ensures { result ≡ chain_op operator }
{
    match operator {
        ChainOperator::Or => Op::Nary(NaryOp::Or),
        ChainOperator::And => Op::Nary(NaryOp::And),
        ChainOperator::Add => Op::Binary(BinaryOp::Add),
        ChainOperator::Subtract => Op::Binary(BinaryOp::Sub),
        ChainOperator::Multiply => Op::Binary(BinaryOp::Mul),
        ChainOperator::Divide => Op::Binary(BinaryOp::Div),
        ChainOperator::Remainder => Op::Binary(BinaryOp::Rem),
    }
}

/// A chain so far with one more operand.
pub fn join_with(
    alloc: Global,
    at: Place,
    operator: ChainOperator,
    so_far: Built,
    operand: Result<Built, Stop>,
) -> Result<Built, Stop>
    ensures did { (s : states.State) →
        Follows (λ t. t) (λ t. t) operand result s s (joined at operator so_far) }
{
    match operand {
        Err(stop) => Err(stop),
        Ok(operand) => node_of_two(alloc, at, chain_operation(operator), so_far, operand),
    }
}

/// A chain that is one operation of all operands.
pub fn join_all(
    at: Place,
    operator: ChainOperator,
    operands: Result<Vec<Built>, Stop>,
) -> Result<Built, Stop>
    ensures did { (s : states.State) →
        Follows (λ terms. terms.items) (λ t.
        t) operands result s s (node_form at (chain_op operator)) }
{
    match operands {
        Err(stop) => Err(stop),
        Ok(operands) => node_of(at, chain_operation(operator), operands),
    }
}

/// The operation of an index and the cells of these bounds. `NoMemory` where there are more than 32 bits count, which no
/// array has; there is no other stop.
fn index_operation(rows: Bounds) -> Result<Op, Stop>
    ensures operation { IfOk result (λ op. op ≡ index_op (bounds_seen rows)) }
    ensures memory { IfErr result (λ stop. stop ≡ NoMemory) }
{
    let len = counted(rows)?;
    Ok(Op::Element { low: rows.low, len })
}

/// How many numbers lie within bounds. `NoMemory` where there are more than 32 bits count; there is no other stop.
fn counted(bounds: Bounds) -> Result<u32, Stop>
    ensures size { IfOk result (λ size. size ≡ size_of (bounds_seen bounds)) }
    ensures memory { IfErr result (λ stop. stop ≡ NoMemory) }
{
    let size = bounds.size();
    if size <= u32::MAX as u128 {
        Ok(size as u32)
    } else {
        Err(Stop::NoMemory)
    }
}

/// The operation of the indices of an array and its cells. `NoMemory` where there are more than 32 bits count, which no
/// array has; there is no other stop.
fn grid_operation(cells: &TermCells) -> Result<Op, Stop>
    ensures operation { IfOk result (λ op.
        op ≡ grid_op (term_cells_seen cells.now).rows (term_cells_seen cells.now).columns
        (term_cells_seen cells.now).terms) }
    ensures memory { IfErr result (λ stop. stop ≡ NoMemory) }
{
    match cells.columns {
        None => index_operation(cells.rows),
        Some(columns) => plane_operation(cells.rows, columns, cells.terms.len()),
    }
}

/// The same where there are columns, of so many cells; where there is none neither length counts.
fn plane_operation(rows: Bounds, columns: Bounds, count: usize) -> Result<Op, Stop>
    ensures operation { IfOk result (λ op.
        op ≡ plane_op (bounds_seen rows) (bounds_seen columns) count) }
    ensures memory { IfErr result (λ stop. stop ≡ NoMemory) }
{
    if count == 0 {
        return Ok(Op::Element2 {
            low1: rows.low,
            len1: 0,
            low2: columns.low,
            len2: 0,
        });
    }
    let len1 = counted(rows)?;
    let len2 = counted(columns)?;
    Ok(Op::Element2 {
        low1: rows.low,
        len1,
        low2: columns.low,
        len2,
    })
}

/// `a[i]`, of the cells, which are charged at the second place, and the index.
fn element_of(
    s: &mut State,
    at: Place,
    place: Place,
    cells: TermCells,
    index: Built,
) -> Result<Built, Stop>
    ensures did { (told : Told) → Does (λ t.
        t) result (state_seen s.new told)
        (element_node at place (term_cells_seen cells) index (state_seen s.old told)) }
{
    let count = cells.terms.len();
    s.charge(count as u64, place)?;
    let op = index_operation(cells.rows)?;
    let terms = before(index, cells.terms)?;
    node_of(at, op, terms)
}

/// The same with the index's answer.
pub fn element_with(
    s: &mut State,
    at: Place,
    place: Place,
    cells: TermCells,
    index: Result<Built, Stop>,
) -> Result<Built, Stop>
    ensures did { (told : Told) → Follows (λ t. t) (λ t.
        t) index result (state_seen s.old told) (state_seen s.new told)
        (element_node at place (term_cells_seen cells)) }
{
    match index {
        Err(stop) => Err(stop),
        Ok(index) => element_of(s, at, place, cells, index),
    }
}

/// `a[i,j]`, of the cells, which are charged at the second place, and the indices.
fn grid_of(
    s: &mut State,
    at: Place,
    place: Place,
    cells: TermCells,
    row: Built,
    column: Built,
) -> Result<Built, Stop>
    ensures did { (told : Told) → Does (λ t.
        t) result (state_seen s.new told)
        (grid_node at place (term_cells_seen cells) row column (state_seen s.old told)) }
{
    let count = cells.terms.len();
    s.charge(count as u64, place)?;
    let op = grid_operation(&cells)?;
    let terms = before(column, cells.terms)?;
    let all = before(row, terms)?;
    node_of(at, op, all)
}

/// The same with the column's answer.
pub fn grid_with(
    s: &mut State,
    at: Place,
    place: Place,
    cells: TermCells,
    row: Built,
    column: Result<Built, Stop>,
) -> Result<Built, Stop>
    ensures did { (told : Told) → Follows (λ t. t) (λ t. t) column result (state_seen s.old told)
        (state_seen s.new told) (grid_node at place (term_cells_seen cells) row) }
{
    match column {
        Err(stop) => Err(stop),
        Ok(column) => grid_of(s, at, place, cells, row, column),
    }
}

/// The term in a cell, and that of 0 where there is no such cell.
fn term_in(terms: Vec<Built>, cell: u128) -> Built
    ensures { result ≡ slice_index_or terms.items cell (constant (pos 0)) }
{
    let mut terms = terms;
    let is_there = cell < terms.len() as u128;
    if is_there {
        terms.swap_remove(cell as usize)
    } else {
        Built::constant(0)
    }
}

/// The term at an index. `OutOfRange` at this place exactly where there is no such cell.
fn cell_at(at: Place, cells: TermCells, cell: Option<u128>) -> Result<Built, Stop>
    ensures did { (s : states.State) →
        Does (λ t. t) result s (then_do (found_at at cell s) (λ k.
        give (term_at (term_cells_seen cells) k))) }
{
    match cell {
        None => Err(Stop::Fault(at, RunFault::OutOfRange)),
        Some(cell) => Ok(term_in(cells.terms, cell)),
    }
}

/// `a[i]`, of the cells and an index that is a number.
pub fn pick(at: Place, cells: TermCells, index: Result<i64, Stop>) -> Result<Built, Stop>
    ensures did { (s : states.State) →
        Follows (λ z. z) (λ t. t) index result s s (picked at (term_cells_seen cells)) }
{
    match index {
        Err(stop) => Err(stop),
        Ok(index) => {
            let cell = cells.extent().at_index(index);
            cell_at(at, cells, cell)
        }
    }
}

/// `a[i,j]`, of the cells and indices that are numbers.
pub fn pick_twice(
    at: Place,
    cells: TermCells,
    row: i64,
    column: Result<i64, Stop>,
) -> Result<Built, Stop>
    ensures did { (s : states.State) →
        Follows (λ z. z) (λ t. t) column result s s (picked_twice at (term_cells_seen cells) row) }
{
    match column {
        Err(stop) => Err(stop),
        Ok(column) => {
            let cell = cells.extent().at_indices(row, column);
            cell_at(at, cells, cell)
        }
    }
}

/// `count(a, e)`, of the cells, which are charged at the second place, and the number.
fn count_of(
    s: &mut State,
    at: Place,
    place: Place,
    cells: TermCells,
    number: Built,
) -> Result<Built, Stop>
    ensures did { (told : Told) → Does (λ t.
        t) result (state_seen s.new told)
        (count_node at place (term_cells_seen cells) number (state_seen s.old told)) }
{
    s.charge(1, at)?;
    let count = cells.terms.len();
    s.charge(count as u64, place)?;
    let terms = behind(cells.terms, number)?;
    node_of(at, Op::Nary(NaryOp::Count), terms)
}

/// The same with the number's answer.
pub fn count_with(
    s: &mut State,
    at: Place,
    place: Place,
    cells: TermCells,
    number: Result<Built, Stop>,
) -> Result<Built, Stop>
    ensures did { (told : Told) → Follows (λ t. t) (λ t. t) number result (state_seen s.old told)
        (state_seen s.new told) (count_node at place (term_cells_seen cells)) }
{
    match number {
        Err(stop) => Err(stop),
        Ok(number) => count_of(s, at, place, cells, number),
    }
}

/// A function of the language, of its arguments; 0 of one that no term has.
fn function_of(at: Place, function: Builtin, terms: Vec<Built>) -> Result<Built, Stop>
    ensures did { (s : states.State) →
        Does (λ t. t) result s (forms.builtin_node at function terms.items s) }
{
    match function {
        Builtin::Abs => node_of(at, Op::Unary(UnaryOp::Abs), terms),
        Builtin::Min => node_of(at, Op::Nary(NaryOp::Least), terms),
        Builtin::Max => node_of(at, Op::Nary(NaryOp::Greatest), terms),
        Builtin::Card => node_of(at, Op::Card, terms),
        Builtin::Member => node_of(at, Op::Member, terms),
        Builtin::Union => node_of(at, Op::TwoSets(TwoSetsOp::Union), terms),
        Builtin::Inter => node_of(at, Op::TwoSets(TwoSetsOp::Inter), terms),
        Builtin::Minus => node_of(at, Op::TwoSets(TwoSetsOp::Minus), terms),
        Builtin::Count
        | Builtin::AllDifferent
        | Builtin::AtMost
        | Builtin::AtLeast
        | Builtin::Exactly
        | Builtin::Knapsack
        | Builtin::MultiKnapsack
        | Builtin::Sequence
        | Builtin::User => Ok(Built::constant(0)),
    }
}

/// A unit for a call of a function of the language, and then the term that it is.
fn charged_function(
    s: &mut State,
    at: Place,
    function: Builtin,
    terms: Vec<Built>,
) -> Result<Built, Stop>
    ensures did { (told : Told) → Does (λ t.
        t) result (state_seen s.new told)
        (called_node at function terms.items (state_seen s.old told)) }
{
    s.charge(1, at)?;
    function_of(at, function, terms)
}

/// The same with the arguments' answer.
pub fn call_with(
    s: &mut State,
    at: Place,
    function: Builtin,
    arguments: Result<Vec<Built>, Stop>,
) -> Result<Built, Stop>
    ensures did { (told : Told) → Follows (λ terms. terms.items) (λ t.
        t) arguments result (state_seen s.old told) (state_seen s.new told)
        (called_node at function) }
{
    match arguments {
        Err(stop) => Err(stop),
        Ok(arguments) => charged_function(s, at, function, arguments),
    }
}
