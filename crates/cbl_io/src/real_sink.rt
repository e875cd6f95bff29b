//! A sink over a writer of the system.
ghost use Rattle.std.specs.Prelude.{◌≡◌, ◌≤◌, ◌<◌, ℕ, List, None, IfOk, OnErr, is_ok, if◌then◌else◌, length, take};
ghost use Rattle.std.specs.Io.{WritesAtMost};
ghost use Rattle.std.specs.Io.KnownBytes.{Appends, Keeps, WriteAppends};
ghost use Rattle.cbl_io.specs.Faults.{HasRisen, next_count};
ghost use Rattle.cbl_io.specs.RealSink.{writer_of, fault_count};

use crate::sink::{Failed, Sink};
use std::io;
use std::io::{ErrorKind, Write};

/// A sink over a writer of the system, as standard output or standard error. It tells no bytes. Each
/// error of the writer is a fault, and so is a write that takes nothing of a piece that isn't empty.
/// An interrupted write is tried again. Nothing is buffered here.
#[derive(Drop)]
pub struct RealSink<W> {
    writer: W,
    faults: u64,
}

impl<W> RealSink<W> {
    /// A sink whose bytes go to the writer, with no fault yet.
    pub fn new(writer: W) -> RealSink<W>
        ensures goes_to { writer_of result ≡ writer }
        ensures no_fault { fault_count result ≡ 0 }
    {
        RealSink { writer, faults: 0 }
    }
}

impl<W: Write> Sink for RealSink<W> {
    ghost bytes = { λ _. None };

    ghost faults = { fault_count };

    fn write(&mut self, piece: &[u8]) -> Result<usize, Failed>
        ensures within { IfOk result (λ taken. taken ≤ length piece.now) }
        ensures some { IfOk result (λ taken. 0 < length piece.now → 0 < taken) }
        ensures failed { OnErr result (HasRisen (fault_count self.old) (fault_count self.new)) }
        ensures never_falls { fault_count self.old ≤ fault_count self.new }
        // what is only this sink's: where the writer tells its bytes, they are those that were taken
        ensures passes_on { IfOk result (λ taken.
            Appends (W.contents (writer_of self.old)) (W.contents (writer_of self.new))
            (take taken piece.now)) }
        ensures keeps { OnErr result (Keeps (W.contents (writer_of self.old))
            (W.contents (writer_of self.new))) }
        ensures counts { fault_count self.new ≡
            (if is_ok result then fault_count self.old else next_count (fault_count self.old)) }
    {
        match write_some(&mut self.writer, piece) {
            Ok(taken) if 0 < taken || piece.is_empty() => Ok(taken),
            _ => {
                self.faults = self.faults.saturating_add(1);
                Err(Failed)
            }
        }
    }
}

// Writes a front of the piece, again where a signal interrupts the call.
fn write_some<W: Write>(writer: &mut W, piece: &[u8]) -> io::Result<usize>
    ensures bound { WritesAtMost result piece.now }
    ensures bytes { WriteAppends (W.contents writer.old) (W.contents writer.new) result piece.now }
{
    for _ in 0..u64::MAX {
        match writer.write(piece) {
            Err(error) if error.kind() == ErrorKind::Interrupted => {}
            answer => return answer,
        }
    }
    Err(io::Error::from(ErrorKind::Interrupted))
}
