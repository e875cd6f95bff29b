//! Outputs.
ghost use Rattle.std.specs.Prelude.{◌≡◌, ◌≤◌, ◌++◌, ◌↔◌, ℕ, List, Option, None, Err, true, OnOk, length};
ghost use Rattle.cbl_io.specs.Faults.{HasRisen};
ghost use Rattle.run_solvers.specs.OfCometMeaning.Onward.{IsFront};
ghost use Rattle.run_solvers.specs.OfRunValues.declared.stop.OutStop.TheVariants.{Full, Failed};
ghost use Rattle.run_outside.specs.Shares.{is_short, share_behind};

use run_solvers::values_of_runs::OutStop;

/// What takes the bytes that a program prints.
pub trait Out {
    /// All bytes that it has taken.
    ghost taken: { Self → List ℕ };

    /// How many bytes it still takes, where it tells that.
    ghost share: { Self → Option ℕ };

    /// How often it has failed.
    ghost faults: { Self → ℕ };

    /// Takes all bytes. `Full` comes exactly where it tells that it has no room for so many, and then it is as before.
    /// `Failed` comes only where the count of faults rises. After any stop a front of the bytes was taken.
    #[inline]
    fn put(&mut self, bytes: &[u8]) -> Result<(), OutStop>
        ensures ok { OnOk result (taken self.new ≡ taken self.old ++ bytes.now) }
        ensures lowered { OnOk result (share self.new ≡
            share_behind (share self.old) (length bytes.now)) }
        ensures full { (result ≡ Err Full) ↔ (is_short (share self.old) (length bytes.now) ≡ true) }
        ensures kept { result ≡ Err Full →
            (taken self.new ≡ taken self.old) × (share self.new ≡ share self.old) }
        ensures begun { IsFront (taken self.old) (taken self.new) }
        ensures front { IsFront (taken self.new) (taken self.old ++ bytes.now) }
        ensures untold { share self.old ≡ None → share self.new ≡ None }
        ensures failed { result ≡ Err Failed → HasRisen (faults self.old) (faults self.new) }
        ensures never_falls { faults self.old ≤ faults self.new };
}

/// An output over memory.
#[derive(Drop)]
pub struct Bytes {
    pub bytes: Vec<u8>,
}

impl Out for Bytes {
    ghost taken = { λ out. out.bytes.items };

    ghost share = { λ out. None };

    ghost faults = { λ out. 0 };

    #[inline]
    fn put(&mut self, bytes: &[u8]) -> Result<(), OutStop> {
        match self.bytes.extend_from_slice(bytes) {
            Ok(()) => Ok(()),
            Err(_) => Err(OutStop::NoMemory),
        }
    }
}
