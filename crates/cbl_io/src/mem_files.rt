//! Files over memory, which fail where they are told to.
ghost use Rattle.std.specs.Prelude.{◌≡◌, ◌≢◌, ◌≤◌, ◌+◌, [], ◌∷◌, ◌++◌, ℕ, List, Some, IfOk, IsOk, OnOk, true, false, length, map, option_copied, string_bytes, take, vec_len, vec_capacity, is_ok, if◌then◌else◌};
ghost use Rattle.std.specs.Ordering.{nat_cmp};
ghost use Rattle.std.specs.Cmp.Lexicographic.{slice_cmp};
ghost use Rattle.std.specs.FinMap.{find};
ghost use Rattle.cbl_io.specs.Faults.{HasRisen, times_of};
ghost use Rattle.cbl_io.specs.Held.{IsRead};
ghost use Rattle.cbl_io.specs.MemFilesState.{held_of, read_fails, is_failed, after_read};

use crate::failed_names::reserve_name;
use crate::files::{Files, ReadStop};
use cbl_base::Text;
use std::alloc::{AllocError, Global};
use std::marker::Model;

/// Files over memory. A read fails exactly where its number is listed, or its name isn't held.
#[derive(Drop)]
pub struct MemFiles {
    entries: Vec<(String, Vec<u8>)>,
    failing: Vec<u64>,
    reads: u64,
    failed: Vec<Text>,
}

impl Model for MemFiles {
    ghost use Rattle.std.specs.Prelude.{map, string_bytes};
    ghost use Rattle.cbl_io.specs.MemFilesState.{MemFilesState};

    ghost Value = { MemFilesState };

    ghost view = { λ f. record { entries = map (λ e. (string_bytes e.0, e.1.items)) f.entries.items; failing = f.failing.items; reads = f.reads; failed = f.failed.items } };
}

impl MemFiles {
    /// Files that hold these entries, of equal names the first. The reads whose numbers from 0 are in
    /// `failing` fail.
    pub fn new(alloc: Global, entries: Vec<(String, Vec<u8>)>, failing: Vec<u64>) -> MemFiles
        ensures { result ≡ record { entries = map (λ e. (string_bytes e.0, e.1.items)) entries.items; failing = failing.items; reads = 0; failed = [] } }
    {
        MemFiles {
            entries,
            failing,
            reads: 0,
            failed: Vec::new(alloc),
        }
    }
}

impl Files for MemFiles {
    ghost held = { λ files. Some (held_of files) };

    ghost faults = { λ files name. times_of name files.failed };

    fn read(&mut self, alloc: Global, name: &str, most: u64) -> Result<Vec<u8>, ReadStop>
        ensures ok { IfOk result (λ bytes.
            IsRead (Some (held_of self.old)) name.now most bytes.items) }
        ensures within { IfOk result (λ bytes. vec_len bytes ≤ most + 1) }
        ensures failed { result ≡ Err ReadStop.Failed →
            HasRisen (times_of name.now self.old.failed) (times_of name.now self.new.failed) }
        ensures never_falls { times_of name.now self.old.failed ≤ times_of name.now self.new.failed }
        ensures others { (other : List ℕ) → other ≢ name.now →
            times_of other self.new.failed ≡ times_of other self.old.failed }
        ensures keeps { Some (held_of self.new) ≡ Some (held_of self.old) }
        // what is only these files'
        ensures fails { is_failed result ≡ true → read_fails self.old name.now ≡ true }
        ensures succeeds { IsOk result → read_fails self.old name.now ≡ false }
        ensures after { self.new ≡ after_read self.old name.now (is_failed result) }
    {
        let number = self.reads;
        self.reads = self.reads.saturating_add(1);
        let kept = reserve_name(alloc, &mut self.failed, name)?;
        if !self.failing.contains(&number) {
            if let Some(bytes) = bytes_of(self.entries.as_slice(), name) {
                return Ok(front_of(alloc, bytes, most)?);
            }
        }
        self.failed.push_reserved(kept);
        Err(ReadStop::Failed)
    }
}

// What the first entry of the name holds.
fn bytes_of<'a>(entries: &'a [(String, Vec<u8>)], name: &str) -> Option<&'a [u8]>
    ensures { option_copied result ≡ find (slice_cmp nat_cmp) name.now
        (map (λ e. (string_bytes e.0, e.1.items)) entries.now) }
{
    for (held, bytes) in entries {
        if name == held.as_str() {
            return Some(bytes.as_slice());
        }
    }
    None
}

// The first `most + 1` bytes, or all where there are fewer.
fn front_of(alloc: Global, bytes: &[u8], most: u64) -> Result<Vec<u8>, AllocError>
    ensures { IfOk result (λ front. front.items ≡ take (most + 1) bytes.now) }
{
    let most = most as usize;
    let front = if most < bytes.len() {
        &bytes[..=most]
    } else {
        bytes
    };
    Vec::from_slice(alloc, front)
}
