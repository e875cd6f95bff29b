//! Sinks with all that they got.
ghost use Rattle.std.specs.Prelude.{◌≡◌, ◌≤◌, ◌<◌, ◌++◌, ℕ, List, Option, IfOk, OnErr, length, take};
ghost use Rattle.cbl_io.specs.Appended.{Appends};
ghost use Rattle.cbl_io.specs.Faults.{HasRisen};
ghost use Rattle.stream_run.specs.Buffering.{appended};

use crate::told::Told;
use cbl_io::{Failed, Sink};

/// A sink that is lent.
#[derive(Drop)]
pub(crate) struct Lent<'a, S: Sink> {
    pub(crate) sink: &'a mut S,
}

/// A sink that is lent, and the bytes that it got since.
#[derive(Drop)]
pub(crate) struct Wire<'a, S: Sink> {
    pub(crate) lent: Lent<'a, S>,
    pub(crate) told: Told,
}

impl<S: Sink> Lent<'_, S> {
    /// Writes a front of the piece as the sink does.
    pub(crate) fn write(&mut self, piece: &[u8]) -> Result<usize, Failed>
        ensures same { self.new.sink.ghost_name ≡ self.old.sink.ghost_name }
        ensures within { IfOk result (λ taken. taken ≤ length piece.now) }
        ensures some { IfOk result (λ taken. 0 < length piece.now → 0 < taken) }
        ensures ok { IfOk result (λ taken. Appends (S.bytes self.old.sink.now)
            (S.bytes self.new.sink.now) (take taken piece.now)) }
        ensures failed { OnErr result (HasRisen (S.faults self.old.sink.now)
            (S.faults self.new.sink.now)) }
        ensures err { OnErr result (S.bytes self.new.sink.now ≡ S.bytes self.old.sink.now) }
        ensures never_falls { S.faults self.old.sink.now ≤ S.faults self.new.sink.now }
    {
        self.sink.write(piece)
    }
}

impl<S: Sink> Wire<'_, S> {
    /// Writes a front of the piece, which isn't empty where the piece isn't, and tells its length. `Failed` comes only where the
    /// sink's count of faults rises, and then nothing was written.
    pub(crate) fn write(&mut self, piece: &[u8]) -> Result<usize, Failed>
        ensures same { self.new.lent.sink.ghost_name ≡ self.old.lent.sink.ghost_name }
        ensures within { IfOk result (λ taken. taken ≤ length piece.now) }
        ensures some { IfOk result (λ taken. 0 < length piece.now → 0 < taken) }
        ensures told { IfOk result (λ taken. self.new.told ≡ self.old.told ++ take taken piece.now) }
        ensures err { OnErr result (self.new.told ≡ self.old.told) }
        ensures kept { (start : Option (List ℕ)) →
            S.bytes self.old.lent.sink.now ≡ appended start self.old.told →
            S.bytes self.new.lent.sink.now ≡ appended start self.new.told }
        ensures failed { OnErr result (HasRisen (S.faults self.old.lent.sink.now)
            (S.faults self.new.lent.sink.now)) }
        ensures never_falls { S.faults self.old.lent.sink.now ≤ S.faults self.new.lent.sink.now }
    {
        let taken = self.lent.write(piece)?;
        self.told = self.told.then(&piece[..taken]);
        Ok(taken)
    }
}
