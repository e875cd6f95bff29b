//! How many distinct subterms a model has.
ghost use Rattle.std.specs.Prelude.{◌≡◌, [], ◌∷◌, ◌++◌, List, IfOk, OnOk};
ghost use Rattle.solver_models.specs.Defining.{distinct_with};
ghost use Rattle.solver_models.specs.Kept.{IsCounted};
ghost use Rattle.term_count.specs.Counting.{Counts};
ghost use Rattle.term_model.specs.Subterms.{distinct_subterms, once, subterms_posted};
ghost use Rattle.term_model.specs.declared.model.Posted.{Posted};

use cbl_base::NoMemory;
use std::alloc::Global;
use term_count::Subterms;
use term_model::{Model, Posted, Term, term_posted};

/// Adds the term of what was posted.
fn add_posted(
    alloc: Global,
    counted: &mut Subterms,
    model: &Model,
    posted: Posted,
) -> Result<(), NoMemory>
    ensures { OnOk result ((so_far : List Posted) →
        Counts counted.old (once (subterms_posted model.now so_far)) →
        Counts counted.new (once (subterms_posted model.now (so_far ++ posted ∷ [])))) }
{
    match term_posted(model, posted) {
        Some(term) => counted.add(alloc, term),
        None => Ok(()),
    }
}

/// The distinct subterms of a model.
fn counted_model(alloc: Global, model: &Model) -> Result<Subterms, NoMemory>
    ensures { IfOk result (λ counted. Counts counted (distinct_subterms model.now)) }
{
    let mut counted = Subterms::new(alloc);
    for turn in 0..model.posted.len() {
        add_posted(alloc, &mut counted, model, model.posted[turn])?;
    }
    Ok(counted)
}

/// The distinct subterms of a model that were counted, or that are counted now.
fn counted_or(alloc: Global, kept: Option<Subterms>, model: &Model) -> Result<Subterms, NoMemory>
    requires { IsCounted kept model.now }
    ensures { IfOk result (λ counted. Counts counted (distinct_subterms model.now)) }
{
    match kept {
        Some(counted) => Ok(counted),
        None => counted_model(alloc, model),
    }
}

/// The distinct subterms of a model with a term.
pub fn counted_with(
    alloc: Global,
    kept: Option<Subterms>,
    model: &Model,
    term: &Term,
) -> Result<Subterms, NoMemory>
    requires { IsCounted kept model.now }
    ensures { IfOk result (λ counted. Counts counted
        (distinct_with (distinct_subterms model.now) term.now)) }
{
    let mut counted = counted_or(alloc, kept, model)?;
    counted.add(alloc, term)?;
    Ok(counted)
}
