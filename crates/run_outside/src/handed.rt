//! Users' constraints that were handed in.
ghost use Rattle.std.specs.Prelude.{◌≡◌, ◌&&◌, true, false, IfOk, IfSome};
ghost use Rattle.run_solvers.specs.OfCometMeaning.Users.{first_free, is_known, is_named, rule_in, with_given, with_taken};
ghost use Rattle.run_solvers.specs.OfPostedUsers.KeptOf.{IsUserRule, kept_of};
ghost use Rattle.run_solvers.specs.OfPostedUsers.KeptRule.{kept, no_rule};
ghost use Rattle.run_outside.specs.HandedIn.{refusal_of, users_seen};

use cbl_base::{NoMemory, RunFault};
use node_kinds::{KindOf, SolverNode};
use std::alloc::Global;
use std::marker::Model;
use std::mem;
use user_constraint::LocalConstraint;

/// A user's constraint that was handed in, as a node, under its name, until a system is given it.
#[derive(Drop)]
pub struct HandedIn<N: SolverNode> {
    name: Vec<u8>,
    node: Option<N>,
    free: bool,
}

impl<N: SolverNode> Model for HandedIn<N> {
    ghost use Rattle.std.specs.Prelude.{option_map};
    ghost use Rattle.run_solvers.specs.OfCometMeaning.Users.{User};
    ghost use Rattle.run_solvers.specs.OfPostedUsers.KeptOf.{kept_of};
    ghost use Rattle.run_outside.specs.HandedIn.{IsOfUser, rule_left, user_code};

    ghost Value = { User };

    ghost coded = { user_code };

    ghost view = { λ a. record {
      name = a.name.items;
      rule = rule_left
          (option_map (λ node. kept_of (N.NodeRule.rule node)) a.node);
      free = a.free;
    } };

    ghost invariant = { λ a. IsOfUser N.NodeRule.rule a.node };
}

impl<U: LocalConstraint> HandedIn<KindOf<U>> {
    /// One that is free.
    pub fn new(alloc: Global, user: U) -> Result<HandedIn<KindOf<U>>, NoMemory>
        ensures { IfOk result (λ one. one ≡
            record { name = U.user_name user; rule = kept (U.user_rule user); free = true }) }
    {
        let name = user.name().as_bytes().to_vec(alloc)?;
        Ok(HandedIn {
            name,
            node: Some(KindOf::user(alloc, user)),
            free: true,
        })
    }
}

impl<N: SolverNode> HandedIn<N> {
    /// Whether it has this name.
    fn is_named(&self, name: &[u8]) -> bool
        ensures { result ≡ is_named name.now self.now }
    {
        self.name.as_slice() == name
    }

    /// Whether it has this name and is free.
    fn is_open(&self, name: &[u8]) -> bool
        ensures { result ≡ (is_named name.now self.now && (self.now).free) }
    {
        self.is_named(name) && self.free
    }

    /// Takes it.
    fn take(&mut self)
        ensures { self.new ≡ record self.old { free = false } }
    {
        self.free = false;
    }

    /// The node of the constraint, if it wasn't given away before.
    #[tactic(auto, using(crate::proofs::HandedLaws::user_given))]
    fn give(&mut self) -> Option<N>
        ensures user { IfSome result (λ node. IsUserRule (N.NodeRule.rule node)) }
        ensures rule { IfSome result (λ node. kept_of (N.NodeRule.rule node) ≡ (self.old).rule) }
        ensures given { self.new ≡ record self.old { rule = no_rule } }
    {
        mem::replace(&mut self.node, None)
    }
}

/// All, in their order, each of them free.
pub fn handed_in<U: LocalConstraint>(
    alloc: Global,
    users: Vec<U>,
) -> Result<Vec<HandedIn<KindOf<U>>>, NoMemory>
    ensures { IfOk result (λ all. all.items ≡ users_seen U.user_name U.user_rule users.items) }
{
    let mut all = Vec::with_capacity(alloc, users.len())?;
    for user in users {
        all.push(HandedIn::new(alloc, user)?)?;
    }
    Ok(all)
}

/// The number, from 0, of the first one that has the name and is free.
pub(crate) fn first_free<N: SolverNode>(users: &[HandedIn<N>], name: &[u8]) -> Option<usize>
    ensures { result ≡ first_free name.now users.now }
{
    for number in 0..users.len() {
        if users[number].is_open(name) {
            return Some(number);
        }
    }
    None
}

/// Whether one that was handed in has the name.
fn is_known<N: SolverNode>(users: &[HandedIn<N>], name: &[u8]) -> bool
    ensures { result ≡ is_known name.now users.now }
{
    for user in users {
        if user.is_named(name) {
            return true;
        }
    }
    false
}

/// Why none of them can be taken by this name: `UserSpent` where one has it, and else `UnknownUser`.
pub(crate) fn refusal<N: SolverNode>(users: &[HandedIn<N>], name: &[u8]) -> RunFault
    ensures { result ≡ refusal_of (is_known name.now users.now) }
{
    if is_known(users, name) {
        RunFault::UserSpent
    } else {
        RunFault::UnknownUser
    }
}

/// Takes the one with a number.
#[tactic(auto, using(crate::proofs::HandedLaws::taken_set, crate::proofs::HandedLaws::taken_past))]
pub(crate) fn take<N: SolverNode>(users: &mut Vec<HandedIn<N>>, number: usize)
    ensures { users.new.items ≡ with_taken users.old.items number }
{
    if number < users.len() {
        users[number].take();
    }
}

/// The node of the constraint with a number, which is given to a system, if it wasn't before.
#[tactic(auto, using(crate::proofs::HandedLaws::given_set, crate::proofs::HandedLaws::given_past, crate::proofs::HandedLaws::rule_at))]
pub(crate) fn give<N: SolverNode>(users: &mut Vec<HandedIn<N>>, number: usize) -> Option<N>
    ensures user { IfSome result (λ node. IsUserRule (N.NodeRule.rule node)) }
    ensures rule { IfSome result (λ node.
        kept_of (N.NodeRule.rule node) ≡ rule_in users.old.items number) }
    ensures given { users.new.items ≡ with_given users.old.items number }
{
    if number >= users.len() {
        return None;
    }
    users[number].give()
}
