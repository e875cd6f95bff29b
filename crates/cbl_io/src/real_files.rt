//! The files of the system.
ghost use Rattle.std.specs.Prelude.{◌≡◌, ◌≢◌, ◌≤◌, ◌+◌, [], ◌∷◌, ◌++◌, ℕ, List, None, IfOk, IfSome, take, vec_len, if◌then◌else◌};
ghost use Rattle.cbl_io.specs.Faults.{HasRisen, times_of};
ghost use Rattle.cbl_io.specs.MemFilesState.{is_failed};
ghost use Rattle.cbl_io.specs.RealFiles.{failed_names};

use crate::failed_names::reserve_name;
use crate::files::{Files, ReadStop};
use cbl_base::Text;
use std::alloc::Global;
use std::io::{ErrorKind, Read};
use std::{fs, io, rt};

/// The files of the system. They tell no content. A name that is missing, a folder and a file that
/// can't be read fail, and the names that failed are kept. An interrupted read is tried again.
#[derive(Drop)]
pub struct RealFiles<R> {
    system: R,
    failed: Vec<Text>,
}

impl<R> RealFiles<R> {
    /// The files of this system, of which no read has failed yet.
    pub fn new(alloc: Global, system: R) -> RealFiles<R>
        ensures { failed_names result ≡ [] }
    {
        RealFiles {
            system,
            failed: Vec::new(alloc),
        }
    }
}

impl<R: rt::Files> Files for RealFiles<R> {
    ghost held = { λ _. None };

    ghost faults = { λ files name. times_of name (failed_names files) };

    fn read(&mut self, alloc: Global, name: &str, most: u64) -> Result<Vec<u8>, ReadStop>
        ensures within { IfOk result (λ bytes. vec_len bytes ≤ most + 1) }
        ensures failed { result ≡ Err ReadStop.Failed →
            HasRisen (times_of name.now (failed_names self.old))
            (times_of name.now (failed_names self.new)) }
        ensures never_falls { times_of name.now (failed_names self.old) ≤ times_of name.now
            (failed_names self.new) }
        ensures others { (other : List ℕ) → other ≢ name.now →
            times_of other (failed_names self.new) ≡ times_of other (failed_names self.old) }
        // what is only these files'
        ensures kept { failed_names self.new ≡ (if is_failed result then failed_names self.old ++ name.now ∷ [] else failed_names self.old) }
    {
        let kept = reserve_name(alloc, &mut self.failed, name)?;
        match read_file(alloc, &self.system, name, most) {
            Ok(bytes) => Ok(bytes),
            Err(error) if error.kind() == ErrorKind::OutOfMemory => Err(ReadStop::NoMemory),
            Err(_) => {
                self.failed.push_reserved(kept);
                Err(ReadStop::Failed)
            }
        }
    }
}

// The first `most + 1` bytes of the file, or all where there are fewer.
fn read_file<R: rt::Files>(alloc: Global, system: &R, name: &str, most: u64) -> io::Result<Vec<u8>>
    ensures { IfOk result (λ bytes. vec_len bytes ≤ most + 1) }
{
    read_front(alloc, fs::open(system, name)?, most)
}

// The first `most + 1` bytes that the reader has left, or all where there are fewer. No byte behind
// them is read.
fn read_front<R: Read + Drop>(alloc: Global, reader: R, most: u64) -> io::Result<Vec<u8>>
    ensures within { IfOk result (λ bytes. vec_len bytes ≤ most + 1) }
    ensures front { IfOk result (λ bytes.
        IfSome (R.remaining reader) (λ left. bytes.items ≡ take (most + 1) left)) }
{
    let limit = most.saturating_add(1);
    let mut bytes = Vec::new(alloc);
    reader.take(limit).read_to_end(&mut bytes)?;
    bytes.truncate(limit as usize);
    Ok(bytes)
}
