//! For each variable the numbers of the lists that depend on it, also through definitions.
ghost use Rattle.std.specs.Prelude.{◌≡◌, ◌<◌, ◌≤◌, ◌||◌, ℕ, Bool, true, false, List, Vec, Some, None, length, slice_set, IfOk, OnOk};
ghost use Rattle.std.specs.List.{Contains, list_all, list_any};
ghost use Rattle.layer_plan.specs.Dependencies.{list_of};
ghost use Rattle.store_shares.specs.Closing.{Closes};
ghost use Rattle.store_shares.specs.Naming.{words_of};
ghost use Rattle.store_shares.specs.Settled.{AreRanked, AreRight, AreRising, AreSets, KeepsKnown, is_known, known_words};
ghost use Rattle.store_shares.specs.Words.{has, IsRising};

use crate::users::list_of;
use crate::words::{Word, joined};
use cbl_base::NoMemory;
use std::alloc::Global;

/// A variable's own set.
fn words_of(own: &[Vec<Word>], variable: usize) -> &[Word]
    requires { variable < length own.now }
    ensures { result.now ≡ words_of own.now variable }
{
    own[variable].as_slice()
}

/// Whether the set of a variable is known.
fn is_known(sets: &[Option<Vec<Word>>], variable: usize) -> bool
    ensures { result ≡ is_known sets.now variable }
{
    match sets.get(variable) {
        Some(set) => set.is_some(),
        None => false,
    }
}

/// Whether the sets of all these variables are known.
fn are_known(sets: &[Option<Vec<Word>>], variables: &[u32]) -> bool
    ensures { result ≡ list_all (is_known sets.now) variables.now }
{
    variables
        .iter()
        .all(|variable| is_known(sets, *variable as usize))
}

/// The set of a variable, empty where it isn't known.
pub(crate) fn known_words(sets: &[Option<Vec<Word>>], variable: usize) -> &[Word]
    ensures { result.now ≡ known_words sets.now variable }
{
    match sets.get(variable) {
        Some(Some(words)) => words,
        _ => &[],
    }
}

/// The numbers of the sets of some variables, joined in pairs, so that a variable with many users costs little more
/// than reading their sets.
fn united(
    alloc: Global,
    sets: &[Option<Vec<Word>>],
    variables: &[u32],
) -> Result<Vec<Word>, NoMemory>
    requires { AreRising sets.now }
    ensures has { IfOk result (λ words. (k : ℕ) → has words.items k ≡
        list_any (λ u. has (known_words sets.now u) k) variables.now) }
    ensures rising { IfOk result (λ words. IsRising words.items) }
{
    let count = variables.len();
    if count == 0 {
        return Ok(Vec::new(alloc));
    }
    if count == 1 {
        let words = joined(alloc, known_words(sets, variables[0] as usize), &[])?;
        return Ok(words);
    }
    let half = count / 2;
    let first = united(alloc, sets, &variables[..half])?;
    let second = united(alloc, sets, &variables[half..])?;
    let words = joined(alloc, &first, &second)?;
    Ok(words)
}

/// Finds the set of a variable, unless it is known or that of a user is missing.
fn settle(
    alloc: Global,
    own: &[Vec<Word>],
    users: &[Vec<u32>],
    sets: &mut Vec<Option<Vec<Word>>>,
    variable: usize,
) -> Result<(), NoMemory>
    requires own { variable < length own.now }
    requires users { length users.now ≡ length own.now }
    requires sets { length sets.old.items ≡ length own.now }
    requires rising { (x : ℕ) → IsRising (words_of own.now x) }
    requires known { AreRising sets.old.items }
    ensures count { OnOk result (length sets.new.items ≡ length own.now) }
    ensures rising { OnOk result (AreRising sets.new.items) }
    ensures right { OnOk result ((all : ℕ → ℕ → Bool) →
        Closes all (λ x. has (words_of own.now x)) (list_of users.now) (length own.now) →
        AreRight all sets.old.items → AreRight all sets.new.items) }
    ensures kept { OnOk result (KeepsKnown sets.old.items sets.new.items) }
    ensures settled { OnOk result (((u : ℕ) → Contains (list_of users.now variable) u → is_known sets.old.items u ≡ true) →
        is_known sets.new.items variable ≡ true) }
{
    if is_known(sets, variable) {
        return Ok(());
    }
    let users = list_of(users, variable);
    if !are_known(sets, users) {
        return Ok(());
    }
    let of_users = united(alloc, sets, users)?;
    let all = joined(alloc, words_of(own, variable), &of_users)?;
    sets[variable] = Some(all);
    Ok(())
}

/// Goes through all variables once, in order of their numbers.
fn settle_each(
    alloc: Global,
    own: &[Vec<Word>],
    users: &[Vec<u32>],
    sets: &mut Vec<Option<Vec<Word>>>,
) -> Result<(), NoMemory>
    requires users { length users.now ≡ length own.now }
    requires sets { length sets.old.items ≡ length own.now }
    requires rising { (x : ℕ) → IsRising (words_of own.now x) }
    requires known { AreRising sets.old.items }
    ensures count { OnOk result (length sets.new.items ≡ length own.now) }
    ensures rising { OnOk result (AreRising sets.new.items) }
    ensures right { OnOk result ((all : ℕ → ℕ → Bool) →
        Closes all (λ x. has (words_of own.now x)) (list_of users.now) (length own.now) →
        AreRight all sets.old.items → AreRight all sets.new.items) }
    ensures settled { OnOk result ((x : ℕ) → x < length own.now →
        ((u : ℕ) → Contains (list_of users.now x) u → is_known sets.old.items u ≡ true) → is_known sets.new.items x ≡ true) }
{
    for variable in 0..own.len() {
        settle(alloc, own, users, sets, variable)?;
    }
    Ok(())
}

/// No set is known.
fn none_known(alloc: Global, count: usize) -> Result<Vec<Option<Vec<Word>>>, NoMemory>
    ensures count { IfOk result (λ sets. length sets.items ≡ count) }
    ensures none { IfOk result (λ sets. (x : ℕ) → is_known sets.items x ≡ false) }
{
    let mut sets = Vec::with_capacity(alloc, count)?;
    for _variable in 0..count {
        sets.push(None)?;
    }
    Ok(sets)
}

/// Whether all sets are known.
fn are_all_known(sets: &[Option<Vec<Word>>]) -> bool
    ensures { result ≡ true → (x : ℕ) → x < length sets.now → is_known sets.now x ≡ true }
{
    sets.iter().all(|set| set.is_some())
}

/// Goes through variables in an order that is given.
fn settle_in_order(
    alloc: Global,
    own: &[Vec<Word>],
    users: &[Vec<u32>],
    sets: &mut Vec<Option<Vec<Word>>>,
    order: &[usize],
) -> Result<(), NoMemory>
    requires users { length users.now ≡ length own.now }
    requires sets { length sets.old.items ≡ length own.now }
    requires rising { (x : ℕ) → IsRising (words_of own.now x) }
    requires known { AreRising sets.old.items }
    ensures count { OnOk result (length sets.new.items ≡ length own.now) }
    ensures rising { OnOk result (AreRising sets.new.items) }
    ensures right { OnOk result ((all : ℕ → ℕ → Bool) →
        Closes all (λ x. has (words_of own.now x)) (list_of users.now) (length own.now) →
        AreRight all sets.old.items → AreRight all sets.new.items) }
{
    for variable in order {
        if *variable < own.len() {
            settle(alloc, own, users, sets, *variable)?;
        }
    }
    Ok(())
}

/// The sets of all variables, each of its own numbers and those of its users. The hint puts each variable behind its
/// users, so that no other round is needed.
pub(crate) fn closed(
    alloc: Global,
    own: &[Vec<Word>],
    users: &[Vec<u32>],
    hint: &[usize],
) -> Result<Vec<Option<Vec<Word>>>, NoMemory>
    requires users { length users.now ≡ length own.now }
    requires rising { (x : ℕ) → IsRising (words_of own.now x) }
    requires ranked { AreRanked (list_of users.now) (length own.now) }
    ensures { IfOk result (λ sets. (all : ℕ → ℕ → Bool) →
        Closes all (λ x. has (words_of own.now x)) (list_of users.now) (length own.now) →
        AreSets all (length own.now) sets.items) }
{
    let mut sets = none_known(alloc, own.len())?;
    settle_in_order(alloc, own, users, &mut sets, hint)?;
    for _round in 0..own.len() {
        if are_all_known(&sets) {
            return Ok(sets);
        }
        settle_each(alloc, own, users, &mut sets)?;
    }
    Ok(sets)
}
