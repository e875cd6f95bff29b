//! Files that are read by name.
ghost use Rattle.std.specs.Prelude.{◌≡◌, ◌≢◌, ◌+◌, ◌≤◌, ℕ, List, Option, IfOk, vec_len};
ghost use Rattle.std.specs.Ordering.{nat_cmp};
ghost use Rattle.cbl_io.specs.Faults.{HasRisen};
ghost use Rattle.cbl_io.specs.Held.{Held, IsRead};

use cbl_base::WantOfMemory;
use std::alloc::Global;

/// Why a read gave no bytes.
#[derive(Clone, Copy, PartialEq, Eq, Debug)]
pub enum ReadStop {
    /// The file isn't there, or can't be read.
    Failed,
    NoMemory,
}

impl<E: WantOfMemory> From<E> for ReadStop {
    ghost use Rattle.std.specs.Prelude.{◌≡◌};
    ghost use Rattle.cbl_io.specs.declared.files.ReadStop.TheVariants as stops;

    ghost from_gives = { λ _ stop. stop ≡ stops.NoMemory };

    fn from(_error: E) -> ReadStop {
        ReadStop::NoMemory
    }
}

/// Files that are read by name.
pub trait Files {
    /// The bytes that each name holds, where the object tells them.
    ghost held: { Self → Option Held };

    /// How often reading the name has failed.
    ghost faults: { Self → List ℕ → ℕ };

    /// The first `most + 1` bytes of what the name holds, or all of them where there are fewer.
    /// `Failed` comes only where the name's count of faults rises; a name that isn't held fails.
    fn read(&mut self, alloc: Global, name: &str, most: u64) -> Result<Vec<u8>, ReadStop>
        ensures ok { IfOk result (λ bytes. IsRead (held self.old) name.now most bytes.items) }
        ensures within { IfOk result (λ bytes. vec_len bytes ≤ most + 1) }
        ensures failed { result ≡ Err ReadStop.Failed →
            HasRisen (faults self.old name.now) (faults self.new name.now) }
        ensures never_falls { faults self.old name.now ≤ faults self.new name.now }
        ensures others { (other : List ℕ) → other ≢ name.now →
            faults self.new other ≡ faults self.old other }
        ensures keeps { held self.new ≡ held self.old };
}
