//! Both constraints, in boxes, as a program hands them in.

use main_constraints::{AllEqual, Increasing};
use std::alloc::Global;
use std::test::*;
use user_constraint::UserConstraint;

// What the constraint answers as text: its name, its violations over no numbers, over 2, 2, 5, over 2, 9, 5, those
// at the last place, and those that three moves would make.
fn answers(alloc: Global, mut user: Box<dyn UserConstraint>) -> Result<String, Fail> {
    user.reset(&[])?;
    let none = user.violations();
    user.reset(&[2, 2, 5])?;
    let first = user.violations();
    user.assign(1, 9)?;
    let second = user.violations();
    let last = user.place_violation(2);
    let moved = user.probe(&[(0, 9), (2, 8), (1, 9)])?;
    Ok(format!(in alloc; "{} {none} {first} {second} {last} {moved}", user.name())?)
}

#[test]
fn all_equal_answers(rt: HostRuntime) -> Result<(), Fail> {
    let alloc = rt.alloc();
    let user: Box<dyn UserConstraint> = Box::new(alloc, AllEqual::new(alloc))?;
    assert_eq!(rt; answers(alloc, user)?.as_str(), "allequal 0 1 2 2 1");
    Ok(())
}

#[test]
fn increasing_answers(rt: HostRuntime) -> Result<(), Fail> {
    let alloc = rt.alloc();
    let user: Box<dyn UserConstraint> = Box::new(alloc, Increasing::new(alloc))?;
    assert_eq!(rt; answers(alloc, user)?.as_str(), "increasing 0 0 4 4 1");
    Ok(())
}
