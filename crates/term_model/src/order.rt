//! An order in which each variable stands behind those that it depends on. It is a hint: what is computed
//! doesn't hang on it, only how often it is tried.

use cbl_base::NoMemory;
use std::alloc::Global;

/// A variable that is being visited, and which of those that it names comes next.
#[derive(Clone, Copy)]
struct Visit {
    var: usize,
    next: usize,
}

/// The search in depth through what the variables name.
#[derive(Drop)]
struct Search {
    seen: Vec<bool>,
    stack: Vec<Visit>,
    order: Vec<usize>,
}

impl Search {
    /// Goes to a variable, unless it was seen.
    fn enter(&mut self, var: usize) -> Result<(), NoMemory> {
        let Some(seen) = self.seen.get_mut(var) else {
            return Ok(());
        };
        if *seen {
            return Ok(());
        }
        *seen = true;
        self.stack.push(Visit { var, next: 0 })?;
        Ok(())
    }

    /// Goes on with a visit: to the next variable that is named, or behind the variable.
    fn go_on(&mut self, named: &[Vec<u32>], visit: Visit) -> Result<(), NoMemory> {
        let Some(names) = named.get(visit.var) else {
            return Ok(());
        };
        match names.get(visit.next) {
            Some(name) => {
                let next = visit.next.saturating_add(1);
                self.stack.push(Visit {
                    var: visit.var,
                    next,
                })?;
                self.enter(*name as usize)
            }
            None => Ok(self.order.push(visit.var)?),
        }
    }
}

/// The variables, each behind those that it names.
pub fn order_of(alloc: Global, named: &[Vec<u32>]) -> Result<Vec<usize>, NoMemory> {
    let mut search = Search {
        seen: vec![in alloc; false; named.len()]?,
        stack: Vec::new(alloc),
        order: Vec::new(alloc),
    };
    for root in 0..named.len() {
        search.enter(root)?;
        for _step in 0..usize::MAX {
            let Some(visit) = search.stack.pop() else {
                break;
            };
            search.go_on(named, visit)?;
        }
    }
    Ok(search.order)
}
