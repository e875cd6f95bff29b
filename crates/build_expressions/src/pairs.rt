//! `min` and `max`, behind whose parenthesis two expressions or generators may stand.
ghost use Rattle.std.specs.Prelude.{◌≡◌, IfOk};
ghost use Rattle.comet_syntax.specs.Grammar.Symbols.{pair, pair_named, unnamed};
ghost use Rattle.comet_syntax.specs.Grammar.Expressions.{pair_first_name, pair_named_called, pair_named_in, pair_unnamed, unnamed_min};
ghost use Rattle.comet_syntax.specs.Written.Expressions.{written};
ghost use Rattle.parse_stacks.specs.Undoing.{Ready, Undone};
ghost use Rattle.build_expressions.specs.MadeOperands as made;
ghost use Rattle.build_expressions.specs.MadeOperands.{Begun, NamedPairMade, PairMade, PairOverMade, PairTwoMade, UnnamedPairMade, of_pair};

use crate::generating::{join_generators, make_generator};
use crate::making::{make_aggregate, make_extreme};
use cbl_base::{NoMemory, Place};
use comet_syntax::tree::{Aggregate, Expression, Extreme, Name};
use parse_stacks::{
    Pair, PairRest, Stacks, beside, beside_two, link, put, put_made, raise, raise_name, suffix,
    take, take_behind,
};
use std::alloc::Global;

// `min` or `max` as an aggregate.
fn aggregate_by(extreme: Extreme) -> Aggregate
    ensures { result ≡ made.aggregate_by extreme }
{
    match extreme {
        Extreme::Min => Aggregate::Min,
        Extreme::Max => Aggregate::Max,
    }
}

// `min` or `max` with what stands behind its parenthesis.
fn make_pair(
    alloc: Global,
    which: Extreme,
    place: Place,
    behind: Pair,
) -> Result<Expression, NoMemory>
    ensures { IfOk result (λ e. written e ≡ of_pair which place behind) }
{
    match behind {
        Pair::Two {
            left,
            right,
            suffixes,
        } => {
            let (primary, suffixes) = beside(
                make_extreme(alloc, which, place, left, right),
                suffixes,
            )?;
            let all = suffix(alloc, primary, suffixes)?;
            Ok(all)
        }
        Pair::Over { generators, body } => {
            let kind = aggregate_by(which);
            let all = make_aggregate(alloc, kind, place, generators, body)?;
            Ok(all)
        }
    }
}

// What begins with a name behind `min(` or `max(`.
fn begin(alloc: Global, name: Name, rest: PairRest) -> Result<Pair, NoMemory>
    ensures { IfOk result (λ p. Begun name rest p) }
{
    match rest {
        PairRest::Over {
            domain,
            more,
            condition,
            body,
        } => {
            let first = make_generator(name, domain);
            let (generators, body) = beside(join_generators(alloc, first, more, condition), body)?;
            Ok(Pair::Over { generators, body })
        }
        PairRest::Two {
            called,
            inner,
            behind,
            right,
            suffixes,
        } => {
            let made = raise_name(alloc, name, called, inner, behind);
            let (left, right, suffixes) = beside_two(made, right, suffixes)?;
            Ok(Pair::Two {
                left,
                right,
                suffixes,
            })
        }
    }
}

/// `min(` or `max(` and what stands behind it
pub fn undo_pair(alloc: Global, stacks: &mut Stacks, which: Extreme) -> Result<(), NoMemory>
    requires { Ready unnamed_min stacks.old }
    ensures { IfOk result (λ _. Undone unnamed unnamed_min (PairMade which) stacks.old stacks.new) }
{
    let place = take(&mut stacks.places);
    let behind = take(&mut stacks.pairs);
    let made = make_pair(alloc, which, place, behind);
    put_made(&mut stacks.expressions, made)
}

/// A name, and what stands behind it
pub fn undo_named_pair(alloc: Global, stacks: &mut Stacks) -> Result<(), NoMemory>
    requires { Ready pair_first_name stacks.old }
    ensures { IfOk result (λ _. Undone pair pair_first_name NamedPairMade stacks.old stacks.new) }
{
    let name = take(&mut stacks.names);
    let rest = take(&mut stacks.pair_rests);
    let made = begin(alloc, name, rest);
    put_made(&mut stacks.pairs, made)
}

/// `left, right)` and suffixes
pub fn undo_unnamed_pair(alloc: Global, stacks: &mut Stacks) -> Result<(), NoMemory>
    requires { Ready pair_unnamed stacks.old }
    ensures { IfOk result (λ _. Undone pair pair_unnamed UnnamedPairMade stacks.old stacks.new) }
{
    let operand = take(&mut stacks.expressions);
    let behind = take_behind(
        &mut stacks.links,
        &mut stacks.up_to,
        &mut stacks.compared,
        &mut stacks.branches,
    );
    let left = raise(alloc, operand, behind)?;
    let right = take(&mut stacks.expressions);
    let suffixes = take(&mut stacks.suffixes);
    let made = Pair::Two {
        left,
        right,
        suffixes,
    };
    put(&mut stacks.pairs, made)
}

/// `in domain, more : condition) body`
pub fn undo_pair_over(alloc: Global, stacks: &mut Stacks) -> Result<(), NoMemory>
    requires { Ready pair_named_in stacks.old }
    ensures { IfOk result (λ _. Undone pair_named pair_named_in PairOverMade stacks.old stacks.new) }
{
    let domain = take(&mut stacks.expressions);
    let operand = take(&mut stacks.expressions);
    let product = take(&mut stacks.links);
    let (body, domain) = beside(link(alloc, operand, product), domain)?;
    let more = take(&mut stacks.generator_lists);
    let condition = take(&mut stacks.optional);
    let made = PairRest::Over {
        domain,
        more,
        condition,
        body,
    };
    put(&mut stacks.pair_rests, made)
}

/// What the first expression goes on with behind its name, then `, right)` and suffixes
pub fn undo_pair_two(stacks: &mut Stacks) -> Result<(), NoMemory>
    requires { Ready pair_named_called stacks.old }
    ensures { IfOk result (λ _. Undone pair_named pair_named_called PairTwoMade stacks.old stacks.new) }
{
    let called = take(&mut stacks.called);
    let inner = take(&mut stacks.suffixes);
    let behind = take_behind(
        &mut stacks.links,
        &mut stacks.up_to,
        &mut stacks.compared,
        &mut stacks.branches,
    );
    let right = take(&mut stacks.expressions);
    let suffixes = take(&mut stacks.suffixes);
    let made = PairRest::Two {
        called,
        inner,
        behind,
        right,
        suffixes,
    };
    put(&mut stacks.pair_rests, made)
}
