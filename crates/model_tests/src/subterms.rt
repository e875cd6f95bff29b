//! Distinct subterms, counted.
use cbl_base::{NoMemory, Place, VarId};
use std::alloc::Global;
use std::test::*;
use term_count::Subterms;
use term_model::{BinaryOp, Op, Term};

fn var(index: u32) -> Term {
    Term::Var(VarId { solver: 0, index })
}

fn node(alloc: Global, op: Op, col: u32, left: Term, right: Term) -> Result<Term, NoMemory> {
    let mut args = Vec::new(alloc);
    args.push(left)?;
    args.push(right)?;
    Ok(Term::Node {
        op,
        args,
        place: Place { line: 1, col },
    })
}

// x * x + 1 has three subterms; at another place it adds none; with another variable it adds two.
#[test]
fn equal_ones_count_once(rt: HostRuntime) -> Result<(), Fail> {
    let alloc = rt.alloc();
    let mut terms = Subterms::new(alloc);
    for (col, index, wanted) in [(1, 0, 3), (9, 0, 3), (1, 1, 5), (5, 1, 5)] {
        let square = node(
            alloc,
            Op::Binary(BinaryOp::Mul),
            col,
            var(index),
            var(index),
        )?;
        let whole = node(
            alloc,
            Op::Binary(BinaryOp::Add),
            col,
            square,
            Term::Const(1),
        )?;
        terms.add(alloc, &whole)?;
        assert_eq!(rt; terms.len(), wanted);
    }
    Ok(())
}
