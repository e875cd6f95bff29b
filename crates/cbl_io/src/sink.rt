//! Sinks, which take bytes.
ghost use Rattle.std.specs.Prelude.{◌≡◌, ◌≤◌, ◌<◌, ℕ, List, Option, OnOk, OnErr, IfOk, length, take};
ghost use Rattle.cbl_io.specs.Faults.{HasRisen};
ghost use Rattle.cbl_io.specs.Appended.{Appends, AppendsFront};

/// A write failed.
#[derive(Clone, Copy, PartialEq, Eq, Debug)]
pub struct Failed;

/// What takes bytes, each time some front of a piece.
pub trait Sink {
    /// All bytes so far, where the object tells them.
    ghost bytes: { Self → Option (List ℕ) };

    /// How often a write has failed.
    ghost faults: { Self → ℕ };

    /// Takes a front of the piece, which isn't empty where the piece isn't, and tells its length.
    /// `Failed` comes only where the count of faults rises, and then nothing was taken.
    fn write(&mut self, piece: &[u8]) -> Result<usize, Failed>
        ensures within { IfOk result (λ taken. taken ≤ length piece.now) }
        ensures some { IfOk result (λ taken. 0 < length piece.now → 0 < taken) }
        ensures ok { IfOk result (λ taken.
            Appends (bytes self.old) (bytes self.new) (take taken piece.now)) }
        ensures failed { OnErr result (HasRisen (faults self.old) (faults self.new)) }
        ensures err { OnErr result (bytes self.new ≡ bytes self.old) }
        ensures never_falls { faults self.old ≤ faults self.new };
}

/// Writes all bytes. After `Failed` a front of them was taken, and the sink's count of faults rose.
pub fn write_all<S: Sink>(sink: &mut S, bytes: &[u8]) -> Result<(), Failed>
    ensures ok { OnOk result (Appends (S.bytes sink.old) (S.bytes sink.new) bytes.now) }
    ensures err { OnErr result (AppendsFront (S.bytes sink.old) (S.bytes sink.new) bytes.now) }
    ensures failed { OnErr result (HasRisen (S.faults sink.old) (S.faults sink.new)) }
    ensures never_falls { S.faults sink.old ≤ S.faults sink.new }
{
    let mut left = bytes;
    while !left.is_empty() {
        let taken = sink.write(left)?;
        left = &left[taken..];
    }
    Ok(())
}
