//! The distinct subterms of terms.
ghost use Rattle.std.specs.Prelude.{◌≡◌, [], List, pos, length, IfOk, OnOk};
ghost use Rattle.std.specs.List.{position_or_len};
ghost use lib.Pointwise.{pointwise};
ghost use Rattle.std.specs.Ordering.{int_eq};
ghost use Rattle.term_count.specs.Counting.{Counts};
ghost use Rattle.term_count.specs.Numbering.{Adds, IsNumbered, listed, terms_after, with_code};
ghost use Rattle.term_model.specs.declared.term.Term.{Term};

use crate::code::{node_code, number_code, set_code};
use cbl_base::NoMemory;
use indexmap::IndexSet;
use std::alloc::Global;
use term_model::Term;

/// The code of each distinct subterm so far.
type Codes = IndexSet<Vec<i64>>;

/// Keeps a code, unless it is there, and answers its place.
fn keep(codes: &mut Codes, code: Vec<i64>) -> Result<i64, NoMemory>
    ensures codes { OnOk result (listed codes.new.keys ≡
        with_code (listed codes.old.keys) code.items) }
    ensures place { IfOk result (λ place.
        place ≡ pos (position_or_len (pointwise int_eq code.items) (listed codes.old.keys))) }
{
    let (place, _) = codes.insert_full(code)?;
    let _count = codes.len();
    Ok(place as i64)
}

/// Adds a term with all below it, and answers its name.
fn add_to(alloc: Global, codes: &mut Codes, term: &Term) -> Result<i64, NoMemory>
    ensures { IfOk result (λ name. (ts : List Term) → IsNumbered (listed codes.old.keys) ts →
        Adds (listed codes.new.keys) ts term.now name) }
{
    match term {
        Term::Const(number) => {
            let code = number_code(alloc, number)?;
            let name = keep(codes, code)?;
            Ok(name)
        }
        Term::ConstSet(set) => {
            let code = set_code(alloc, set.as_slice())?;
            let name = keep(codes, code)?;
            Ok(name)
        }
        Term::Var(var) => Ok(-1 - i64::from(var.index)),
        Term::Node { op, args, place: _ } => {
            let mut names = Vec::new(alloc);
            for arg in args {
                let name = add_to(alloc, codes, arg)?;
                names.push(name)?;
            }
            let code = node_code(alloc, op, &names)?;
            let name = keep(codes, code)?;
            Ok(name)
        }
    }
}

/// The distinct subterms of the terms that were added.
#[derive(Drop)]
pub struct Subterms {
    codes: Codes,
}

impl Subterms {
    /// No term was added yet.
    pub fn new(alloc: Global) -> Subterms
        ensures { Counts result [] }
    {
        Subterms {
            codes: IndexSet::new(alloc),
        }
    }

    /// Adds the subterms of a term, in post-order, each unless one that is equal to it was added. With `NoMemory`
    /// a part of them was added, and the count is of no use any more.
    pub fn add(&mut self, alloc: Global, term: &Term) -> Result<(), NoMemory>
        ensures { OnOk result ((ts : List Term) → Counts self.old ts →
            Counts self.new (terms_after ts term.now)) }
    {
        let _name = add_to(alloc, &mut self.codes, term)?;
        Ok(())
    }

    /// How many there are.
    pub fn len(&self) -> usize
        ensures { (ts : List Term) → Counts self.now ts → result ≡ length ts }
    {
        self.codes.len()
    }
}
