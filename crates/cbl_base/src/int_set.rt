//! A set of numbers.
ghost use Rattle.std.specs.Prelude.{◌≡◌, ◌==◌, ℕ, ℤ, List, [], ◌<◌, ◌≤◌, ◌^◌, length, not, IfOk, IfErr, is_ok, insert, remove, if◌then◌else◌, slice_get};
ghost use Rattle.cbl_base.specs.Sets.{IsRising, is_member, with_member, without_member, set_of};

use crate::faults::NoMemory;
use std::alloc::Global;
use std::marker::Model;

/// A set of 64-bit signed numbers, and seen as the list of its members, which rises.
#[derive(Clone, Drop, Debug)]
pub struct IntSet {
    members: Vec<i64>,
}

impl Model for IntSet {
    ghost use Rattle.std.specs.Prelude.{ℤ, List};
    ghost use Rattle.cbl_base.specs.Sets.{IsRising};

    ghost Value = { List ℤ };

    ghost view = { λ a. a.members.items };

    ghost invariant = { λ a. IsRising a.members.items };
}

impl IntSet {
    /// The empty set.
    pub fn new(alloc: Global) -> IntSet
        ensures { result ≡ [] }
    {
        IntSet {
            members: Vec::new(alloc),
        }
    }

    /// The set of these numbers, whatever their order and however often each stands there. `NoMemory`
    /// where there is none for a copy.
    pub fn from_slice(alloc: Global, numbers: &[i64]) -> Result<IntSet, NoMemory>
        ensures { IfOk result (λ set. set ≡ set_of numbers.now) }
    {
        let mut members = Vec::from_slice(alloc, numbers)?;
        members.sort_unstable();
        members.dedup();
        Ok(IntSet { members })
    }

    /// How many members it has.
    pub fn len(&self) -> usize
        ensures len { result ≡ length self.now }
        ensures small { result < 2 ^ 63 }
    {
        self.members.len()
    }

    /// Whether it has no member.
    pub fn is_empty(&self) -> bool
        ensures { result ≡ (length self.now == 0) }
    {
        self.members.is_empty()
    }

    /// The member at an index from 0, counted from the least. `None` exactly at an index that isn't below the length.
    pub fn get(&self, index: usize) -> Option<i64>
        ensures { result ≡ slice_get self.now index }
    {
        self.members.get(index).copied()
    }

    /// Its members, from the least to the greatest.
    pub fn as_slice(&self) -> &[i64]
        ensures members { result.now ≡ self.now }
        ensures rising { IsRising self.now }
    {
        self.members.as_slice()
    }

    /// Whether the number is a member.
    pub fn contains(&self, v: i64) -> bool
        ensures { result ≡ is_member v self.now }
    {
        search(&self.members, v).is_ok()
    }

    /// Makes the number a member, and answers whether it wasn't one. With `NoMemory` the set stays as it was.
    pub fn insert(&mut self, v: i64) -> Result<bool, NoMemory>
        ensures answer { IfOk result (λ changed. changed ≡ not (is_member v self.old)) }
        ensures members { self.new ≡ (if is_ok result then with_member v self.old else self.old) }
    {
        match search(&self.members, v) {
            Ok(_) => Ok(false),
            Err(index) => {
                self.members.insert(index, v)?;
                Ok(true)
            }
        }
    }

    /// Makes the number no member, and answers whether it was one.
    pub fn remove(&mut self, v: i64) -> bool
        ensures answer { result ≡ is_member v self.old }
        ensures members { self.new ≡ without_member v self.old }
    {
        match search(&self.members, v) {
            Ok(index) => {
                self.members.remove(index);
                true
            }
            Err(_) => false,
        }
    }
}

/// Where a number stands among members that rise, or else where it would stand.
fn search(members: &[i64], v: i64) -> Result<usize, usize>
    requires { IsRising members.now }
    ensures found { is_ok result ≡ is_member v members.now }
    ensures at { IfOk result (λ i. (i < length members.now) ×
        (remove members.now i ≡ without_member v members.now)) }
    ensures between { IfErr result (λ i. (i ≤ length members.now) ×
        (insert members.now i v ≡ with_member v members.now)) }
{
    members.binary_search(&v)
}
