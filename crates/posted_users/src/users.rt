//! The users' constraints of a solver, by their numbers.
ghost use Rattle.std.specs.Prelude.{◌≡◌, ◌<◌, ◌++◌, [], ◌∷◌, vec_capacity, vec_len, OnOk};
ghost use Rattle.posted_users.specs.KeptOf.{IsUserRule, kept_of};
ghost use Rattle.posted_users.specs.PostedState.{rules_of};

use crate::posted::PostedUser;
use cbl_base::{NoMemory, NodeRule};
use operation_values::UserValues;
use std::alloc::Global;

/// The nodes of the users' constraints that were posted, in order of posting, by which their numbers count from 0.
#[derive(Drop)]
pub struct PostedUsers<N: NodeRule> {
    pub posted: Vec<PostedUser<N>>,
}

impl<N: NodeRule> PostedUsers<N> {
    /// None.
    pub fn new(alloc: Global) -> PostedUsers<N>
        ensures { result.posted.items ≡ [] }
    {
        PostedUsers {
            posted: Vec::new(alloc),
        }
    }

    /// Room for one more.
    pub fn reserve(&mut self) -> Result<(), NoMemory>
        ensures same { self.new.posted.items ≡ self.old.posted.items }
        ensures room { OnOk result (vec_len self.new.posted < vec_capacity self.new.posted) }
    {
        Ok(self.posted.reserve(1)?)
    }

    /// Puts the node of a constraint behind the others, which is to hold these numbers once all begin.
    pub fn push_reserved(&mut self, alloc: Global, node: N, numbers: Vec<i64>)
        requires room { vec_len self.old.posted < vec_capacity self.old.posted }
        requires user { IsUserRule (N.rule node) }
        ensures { rules_of self.new.posted.items ≡
            rules_of self.old.posted.items ++ kept_of (N.rule node) ∷ [] }
    {
        self.posted
            .push_reserved(PostedUser::of(alloc, node, numbers));
    }

    /// Resets each of them to its numbers, before which none tells any violations.
    pub fn begin(&mut self) -> Result<(), NoMemory>
        ensures { rules_of self.new.posted.items ≡ rules_of self.old.posted.items }
    {
        for number in 0..self.posted.len() {
            self.begin_at(number)?;
        }
        Ok(())
    }

    /// The same of one of them.
    #[tactic(auto, using(crate::proofs::KeptLaws::rules_set))]
    fn begin_at(&mut self, number: usize) -> Result<(), NoMemory>
        requires { number < vec_len self.old.posted }
        ensures rules { rules_of self.new.posted.items ≡ rules_of self.old.posted.items }
        ensures count { vec_len self.new.posted ≡ vec_len self.old.posted }
    {
        let one = &mut self.posted[number];
        one.begin()
    }

    /// Makes one of them hold a list with a number for each of its places. `NoMemory` also comes where there is none with
    /// this number, or the list is of another length.
    #[tactic(auto, using(crate::proofs::KeptLaws::rules_set))]
    pub fn hold(&mut self, user: u32, list: &[i64]) -> Result<(), NoMemory>
        ensures { rules_of self.new.posted.items ≡ rules_of self.old.posted.items }
    {
        let place = user as usize;
        if place >= self.posted.len() {
            return Err(NoMemory);
        }
        let one = &mut self.posted[place];
        one.hold(list)
    }
}

/// The violations of a list are told by one call, which is given all places at which it differs from what is held; the
/// violation at a place only of the list that is held. Of a list of another length, of another list for a place, before
/// `begin`, and after memory ran out, a constraint can't tell, and the answer is `NoMemory`: a closed solver asks none of
/// these.
impl<N: NodeRule> UserValues for PostedUsers<N> {
    ghost use Rattle.posted_users.specs.KeptRule.{viol_at_by, viol_by};
    ghost use Rattle.posted_users.specs.PostedState.{rules_of};

    ghost viol_of = { λ s. viol_by (rules_of s.posted.items) };

    ghost viol_at = { λ s. viol_at_by (rules_of s.posted.items) };

    fn value(&self, user: u32, list: &[i64]) -> Result<i64, NoMemory> {
        match self.posted.get(user as usize) {
            Some(one) => one.value(list),
            None => Ok(0),
        }
    }

    fn violation_at(&self, user: u32, list: &[i64], place: usize) -> Result<i64, NoMemory> {
        match self.posted.get(user as usize) {
            Some(one) => one.violation_at(list, place),
            None => Ok(0),
        }
    }
}
