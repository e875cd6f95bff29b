//! A sink over memory, which fails where it is told to.
ghost use Rattle.std.specs.Prelude.{◌≡◌, ◌≤◌, ◌<◌, [], IfOk, OnErr, is_ok, length, not, take};
ghost use Rattle.cbl_io.specs.Appended.{Appends};
ghost use Rattle.cbl_io.specs.Faults.{HasRisen};
ghost use Rattle.cbl_io.specs.MemSinkState.{write_fails, taken_of, after_write};

use crate::sink::{Failed, Sink};
use cbl_base::NoMemory;
use std::alloc::Global;
use std::marker::Model;

/// A sink over memory, which keeps all bytes that it took. A write takes the most that it can, and
/// fails exactly where its number is listed, or there is a byte to take and no room for one.
#[derive(Drop)]
pub struct MemSink {
    bytes: Vec<u8>,
    room: usize,
    most: usize,
    failing: Vec<u64>,
    writes: u64,
    faults: u64,
}

impl Model for MemSink {
    ghost use Rattle.std.specs.Prelude.{◌≤◌, ◌<◌, vec_len, vec_capacity};
    ghost use Rattle.cbl_io.specs.MemSinkState.{MemSinkState};

    ghost Value = { MemSinkState };

    ghost view = { λ s. record { bytes = s.bytes.items; room = s.room; most = s.most; failing = s.failing.items; writes = s.writes; faults = s.faults } };

    ghost invariant = { λ s. (vec_len s.bytes ≤ s.room) × (s.room ≤ vec_capacity s.bytes) ×
        (0 < s.most) };
}

impl MemSink {
    /// A sink with room for `room` bytes, which takes at most `most` of them in one write. The writes
    /// whose numbers from 0 are in `failing` fail. `NoMemory` where the room can't be reserved.
    pub fn new(
        alloc: Global,
        room: usize,
        most: usize,
        failing: Vec<u64>,
    ) -> Result<MemSink, NoMemory>
        requires { 0 < most }
        ensures { IfOk result (λ sink. sink ≡ record { bytes = []; room = room; most = most; failing = failing.items; writes = 0; faults = 0 }) }
    {
        Ok(MemSink {
            bytes: Vec::with_capacity(alloc, room)?,
            room,
            most,
            failing,
            writes: 0,
            faults: 0,
        })
    }

    /// All bytes so far.
    pub fn bytes(&self) -> &[u8]
        ensures { result.now ≡ self.now.bytes }
    {
        self.bytes.as_slice()
    }
}

impl Sink for MemSink {
    ghost use Rattle.std.specs.Prelude.{Some};

    ghost bytes = { λ sink. Some sink.bytes };

    ghost faults = { λ sink. sink.faults };

    fn write(&mut self, piece: &[u8]) -> Result<usize, Failed>
        ensures within { IfOk result (λ taken. taken ≤ length piece.now) }
        ensures some { IfOk result (λ taken. 0 < length piece.now → 0 < taken) }
        ensures ok { IfOk result (λ taken.
            Appends (Some self.old.bytes) (Some self.new.bytes) (take taken piece.now)) }
        ensures failed { OnErr result (HasRisen self.old.faults self.new.faults) }
        ensures err { OnErr result (Some self.new.bytes ≡ Some self.old.bytes) }
        ensures never_falls { self.old.faults ≤ self.new.faults }
        // what is only this sink's
        ensures fails { is_ok result ≡ not (write_fails self.old piece.now) }
        ensures takes { IfOk result (λ taken. taken ≡ taken_of self.old piece.now) }
        ensures after { self.new ≡ after_write self.old piece.now }
    {
        let number = self.writes;
        self.writes = self.writes.saturating_add(1);
        let room = self.room - self.bytes.len();
        if self.failing.contains(&number) || (room == 0 && !piece.is_empty()) {
            self.faults = self.faults.saturating_add(1);
            return Err(Failed);
        }
        let taken = piece.len().min(self.most).min(room);
        self.bytes.extend_from_slice(&piece[..taken]).unwrap();
        Ok(taken)
    }
}
