//! Models that may be asked, and models that may not.
use cbl_base::{IntSet, NoMemory, Place, VarId};
use cbl_operations::TwoSetsOp;
use std::alloc::Global;
use std::test::*;
use term_model::{
    BinaryOp, Definition, Member, Model, Op, Posted, Term, Total, VarDecl, VarKind, is_usable,
    kind_within,
};

const NOWHERE: Place = Place { line: 1, col: 1 };

fn var(index: u32) -> Term {
    Term::Var(VarId { solver: 0, index })
}

// A model of so many variables, with one system.
fn model_of(alloc: Global, count: u32) -> Result<Model, NoMemory> {
    let mut vars = Vec::new(alloc);
    for _var in 0..count {
        vars.push(VarDecl {
            kind: VarKind::Number,
            low: 0,
            up: 10,
        })?;
    }
    let mut systems = Vec::new(alloc);
    systems.push(Total {
        place: NOWHERE,
        members: Vec::new(alloc),
    })?;
    Ok(Model {
        vars,
        defs: Vec::new(alloc),
        systems,
        objectives: Vec::new(alloc),
        posted: Vec::new(alloc),
    })
}

fn define(model: &mut Model, index: u32, term: Term) -> Result<(), NoMemory> {
    model.defs.push(Definition {
        var: VarId { solver: 0, index },
        term,
    })?;
    Ok(())
}

fn constrain(model: &mut Model, term: Term) -> Result<(), NoMemory> {
    if let Some(total) = model.systems.get_mut(0) {
        total.members.push(Member { term, weight: 1 })?;
    }
    Ok(())
}

fn post(model: &mut Model, posted: &[Posted]) -> Result<(), NoMemory> {
    for one in posted {
        model.posted.push(*one)?;
    }
    Ok(())
}

fn user(alloc: Global, number: u32) -> Term {
    Term::Node {
        op: Op::User { number },
        args: Vec::new(alloc),
        place: NOWHERE,
    }
}

const FIRST: Posted = Posted::Constrain {
    system: 0,
    member: 0,
};

const SECOND: Posted = Posted::Constrain {
    system: 0,
    member: 1,
};

// Definitions in another order than they were posted in
#[test]
fn definitions_in_any_order(rt: HostRuntime) -> Result<(), Fail> {
    let alloc = rt.alloc();
    for (posted, wanted) in [
        ([Posted::Define(1), Posted::Define(0)], true),
        ([Posted::Define(0), Posted::Define(1)], true),
        ([Posted::Define(0), Posted::Define(0)], false),
        ([Posted::Define(0), Posted::Define(2)], false),
    ] {
        let mut model = model_of(alloc, 3)?;
        define(&mut model, 0, var(1))?;
        define(&mut model, 1, var(2))?;
        post(&mut model, &posted)?;
        assert_eq!(rt; is_usable(alloc, &model).ok(), Some(wanted));
    }
    Ok(())
}

// Two user's constraints with one number, and a number that is left out
#[test]
fn each_user_once(rt: HostRuntime) -> Result<(), Fail> {
    let alloc = rt.alloc();
    for (first, second, wanted) in [(0, 1, true), (1, 0, true), (0, 0, false), (0, 2, false)] {
        let mut model = model_of(alloc, 1)?;
        constrain(&mut model, user(alloc, first))?;
        constrain(&mut model, user(alloc, second))?;
        post(&mut model, &[FIRST, SECOND])?;
        assert_eq!(rt; is_usable(alloc, &model).ok(), Some(wanted));
    }
    Ok(())
}

// A variable that depends on itself, a member that wasn't posted, one of a system that isn't there, and a
// variable that isn't there
#[test]
fn models_that_may_not_be_asked(rt: HostRuntime) -> Result<(), Fail> {
    let alloc = rt.alloc();
    let mut cyclic = model_of(alloc, 2)?;
    for index in [0, 1] {
        define(&mut cyclic, index, var(1 - index))?;
        post(&mut cyclic, &[Posted::Define(index)])?;
    }
    let mut unposted = model_of(alloc, 2)?;
    define(&mut unposted, 0, var(1))?;
    let mut elsewhere = model_of(alloc, 2)?;
    post(
        &mut elsewhere,
        &[Posted::Constrain {
            system: 1,
            member: 0,
        }],
    )?;
    let mut missing = model_of(alloc, 2)?;
    constrain(&mut missing, var(2))?;
    post(&mut missing, &[FIRST])?;
    for model in [cyclic, unposted, elsewhere, missing] {
        assert_eq!(rt; is_usable(alloc, &model).ok(), Some(false));
    }
    Ok(())
}

// A sum is a number, a union of sets a set, and a sum with a set in it has no kind
#[test]
fn kinds_of_terms(rt: HostRuntime) -> Result<(), Fail> {
    let alloc = rt.alloc();
    let model = model_of(alloc, 1)?;
    for (op, first, second, wanted) in [
        (
            Op::Binary(BinaryOp::Add),
            var(0),
            Term::Const(1),
            Some(VarKind::Number),
        ),
        (
            Op::TwoSets(TwoSetsOp::Union),
            Term::ConstSet(IntSet::new(alloc)),
            Term::ConstSet(IntSet::new(alloc)),
            Some(VarKind::Set),
        ),
        (
            Op::Binary(BinaryOp::Add),
            var(0),
            Term::ConstSet(IntSet::new(alloc)),
            None,
        ),
        (Op::Binary(BinaryOp::Add), var(0), var(1), None),
    ] {
        let mut args = Vec::new(alloc);
        args.push(first)?;
        args.push(second)?;
        let term = Term::Node {
            op,
            args,
            place: NOWHERE,
        };
        assert_eq!(rt;
            kind_within(alloc, &model.vars, 1, &term).ok(),
            Some(wanted)
        );
    }
    Ok(())
}
