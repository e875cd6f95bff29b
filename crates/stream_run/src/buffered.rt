//! Outputs that gather what they take.
ghost use Rattle.std.specs.Prelude.{◌≡◌, ◌≢◌, ◌≤◌, ◌<◌, ◌++◌, ℕ, List, [], Option, None, OnOk, OnErr, IfOk, Err, drop, length, take, true};
ghost use Rattle.stream_run.specs.Buffering.{appended, has_risen, taken_by};
ghost use Rattle.cbl_io.specs.Faults.{HasRisen};
ghost use Rattle.comet_meaning.specs.Onward.{IsFront};
ghost use Rattle.run_values.specs.declared.stop.OutStop.TheVariants as stops;

use crate::wire::Wire;
use cbl_io::{Failed, Sink};
use run_standing::state_of_runs::Out;
use run_values::OutStop;
use std::marker::{Brand, PhantomData};
use stmt_run::CountedOut;

/// How many bytes a buffer gathers before they are written.
pub(crate) const OUTPUT_ROOM: usize = 65_536;

/// What a lent sink was as an output to it began. Each call that makes one picks it.
pub(crate) trait Begin {
    /// The name of the loan.
    ghost lender: { ℕ };

    /// The bytes that the sink had, where it tells them.
    ghost bytes: { Option (List ℕ) };

    /// How often it had failed.
    ghost faults: { ℕ };
}

impl Begin for Brand {
    ghost lender = { 0 };

    ghost bytes = { None };

    ghost faults = { 0 };
}

/// An output that gathers what it takes, and writes it to a lent sink whenever there are `OUTPUT_ROOM` bytes. A sink that has
/// failed is asked nothing more.
#[derive(Drop)]
pub(crate) struct Buffered<'a, S: Sink, B: Begin> {
    pub(crate) wire: Wire<'a, S>,
    pub(crate) waiting: Vec<u8>,
    pub(crate) sent: usize,
    pub(crate) failures: u64,
    pub(crate) of: PhantomData<B>,
    ghost lent: { wire.lent.sink.ghost_name ≡ B.lender },
    ghost kept: { S.bytes wire.lent.sink.now ≡ appended B.bytes wire.told },
    ghost counted: { B.faults ≤ S.faults wire.lent.sink.now },
    ghost failed: { 0 < failures → has_risen B.faults (S.faults wire.lent.sink.now) ≡ true },
    ghost within: { sent ≤ length waiting.items },
}

impl<S: Sink, B: Begin> Out for Buffered<'_, S, B> {
    ghost taken = { λ b. taken_by b.wire.told b.sent b.waiting.items };

    ghost share = { λ b. None };

    ghost faults = { λ b. b.failures };

    #[inline]
    fn put(&mut self, bytes: &[u8]) -> Result<(), OutStop> {
        if self.waiting.len().saturating_add(bytes.len()) < OUTPUT_ROOM && self.failures == 0 {
            self.keep(bytes)?;
            return Ok(());
        }
        self.put_through(bytes)
    }
}

impl<S: Sink, B: Begin> CountedOut for Buffered<'_, S, B> {
    fn failures(&self) -> u64 {
        self.failures
    }
}

impl<S: Sink, B: Begin> Buffered<'_, S, B> {
    // Lets the bytes wait behind those that do.
    #[inline]
    fn keep(&mut self, bytes: &[u8]) -> Result<(), OutStop>
        ensures ok { OnOk result (taken_by self.new.wire.told self.new.sent self.new.waiting.items ≡
            taken_by self.old.wire.told self.old.sent self.old.waiting.items ++ bytes.now) }
        ensures err { OnErr result (taken_by self.new.wire.told self.new.sent self.new.waiting.items ≡
            taken_by self.old.wire.told self.old.sent self.old.waiting.items) }
        ensures stop { OnErr result (result ≡ Err stops.NoMemory) }
        ensures failures { self.new.failures ≡ self.old.failures }
    {
        match self.waiting.extend_from_slice(bytes) {
            Ok(()) => Ok(()),
            Err(_) => Err(OutStop::NoMemory),
        }
    }

    // Takes bytes that don't fit beside those that wait, and writes whenever the buffer is full.
    fn put_through(&mut self, bytes: &[u8]) -> Result<(), OutStop>
        ensures ok { OnOk result (taken_by self.new.wire.told self.new.sent self.new.waiting.items ≡
            taken_by self.old.wire.told self.old.sent self.old.waiting.items ++ bytes.now) }
        ensures begun { IsFront (taken_by self.old.wire.told self.old.sent self.old.waiting.items)
            (taken_by self.new.wire.told self.new.sent self.new.waiting.items) }
        ensures front { IsFront (taken_by self.new.wire.told self.new.sent self.new.waiting.items)
            (taken_by self.old.wire.told self.old.sent self.old.waiting.items ++ bytes.now) }
        ensures full { result ≢ Err stops.Full }
        ensures failed { result ≡ Err stops.Failed → HasRisen self.old.failures self.new.failures }
        ensures never_falls { self.old.failures ≤ self.new.failures }
    {
        let mut left = bytes;
        while !left.is_empty() {
            let taken = self.take_some(left)?;
            left = &left[taken..];
        }
        Ok(())
    }

    // Takes a front of the bytes, as many as the buffer has room for and at least one, and tells how many. It writes where the
    // buffer is full then.
    fn take_some(&mut self, bytes: &[u8]) -> Result<usize, OutStop>
        requires { 0 < length bytes.now }
        ensures within { IfOk result (λ n. n ≤ length bytes.now) }
        ensures some { IfOk result (λ n. 0 < n) }
        ensures ok { IfOk result (λ n. taken_by self.new.wire.told self.new.sent self.new.waiting.items ≡
            taken_by self.old.wire.told self.old.sent self.old.waiting.items ++ take n bytes.now) }
        ensures begun { IsFront (taken_by self.old.wire.told self.old.sent self.old.waiting.items)
            (taken_by self.new.wire.told self.new.sent self.new.waiting.items) }
        ensures front { IsFront (taken_by self.new.wire.told self.new.sent self.new.waiting.items)
            (taken_by self.old.wire.told self.old.sent self.old.waiting.items ++ bytes.now) }
        ensures full { result ≢ Err stops.Full }
        ensures failed { result ≡ Err stops.Failed → HasRisen self.old.failures self.new.failures }
        ensures never_falls { self.old.failures ≤ self.new.failures }
    {
        let room = OUTPUT_ROOM.saturating_sub(self.waiting.len()).max(1);
        let fits = bytes.len().min(room);
        self.keep(&bytes[..fits])?;
        self.flush_full()?;
        Ok(fits)
    }

    // Writes what waits where the buffer is full.
    fn flush_full(&mut self) -> Result<(), OutStop>
        ensures taken { taken_by self.new.wire.told self.new.sent self.new.waiting.items ≡
            taken_by self.old.wire.told self.old.sent self.old.waiting.items }
        ensures stop { OnErr result (result ≡ Err stops.Failed) }
        ensures failed { OnErr result (HasRisen self.old.failures self.new.failures) }
        ensures never_falls { self.old.failures ≤ self.new.failures }
    {
        if OUTPUT_ROOM <= self.waiting.len() {
            self.flush()?;
        }
        Ok(())
    }

    // Writes what waits. Where a write has failed, now or before, nothing more is written.
    fn flush(&mut self) -> Result<(), OutStop>
        ensures taken { taken_by self.new.wire.told self.new.sent self.new.waiting.items ≡
            taken_by self.old.wire.told self.old.sent self.old.waiting.items }
        ensures ok { OnOk result (drop self.new.sent self.new.waiting.items ≡ []) }
        ensures whole { OnOk result (self.old.failures ≡ 0) }
        ensures stop { OnErr result (result ≡ Err stops.Failed) }
        ensures failed { OnErr result (HasRisen self.old.failures self.new.failures) }
        ensures never_falls { self.old.failures ≤ self.new.failures }
    {
        if self.failures > 0 {
            return Err(self.fail());
        }
        while self.sent < self.waiting.len() {
            self.send()?;
        }
        self.waiting.clear();
        self.sent = 0;
        Ok(())
    }

    // Writes some of what waits.
    fn send(&mut self) -> Result<(), OutStop>
        requires { self.old.sent < length self.old.waiting.items }
        ensures taken { taken_by self.new.wire.told self.new.sent self.new.waiting.items ≡
            taken_by self.old.wire.told self.old.sent self.old.waiting.items }
        ensures waiting { self.new.waiting.items ≡ self.old.waiting.items }
        ensures ok { OnOk result (self.old.sent < self.new.sent) }
        ensures same { OnOk result (self.new.failures ≡ self.old.failures) }
        ensures stop { OnErr result (result ≡ Err stops.Failed) }
        ensures failed { OnErr result (HasRisen self.old.failures self.new.failures) }
        ensures never_falls { self.old.failures ≤ self.new.failures }
    {
        match self.wire.write(&self.waiting[self.sent..]) {
            Ok(taken) => {
                self.sent += taken;
                Ok(())
            }
            Err(_) => Err(self.fail()),
        }
    }

    // Counts a failure, of a sink that has failed.
    fn fail(&mut self) -> OutStop
        requires { has_risen B.faults (S.faults self.old.wire.lent.sink.now) ≡ true }
        ensures stop { result ≡ stops.Failed }
        ensures told { self.new.wire.told ≡ self.old.wire.told }
        ensures waiting { self.new.waiting.items ≡ self.old.waiting.items }
        ensures sent { self.new.sent ≡ self.old.sent }
        ensures failed { HasRisen self.old.failures self.new.failures }
        ensures never_falls { self.old.failures ≤ self.new.failures }
    {
        self.failures = self.failures.saturating_add(1);
        OutStop::Failed
    }
}

impl<'a, S: Sink, B: Begin> Buffered<'a, S, B> {
    /// Writes what waits, and gives the sink back, with whether all was written. It wasn't where a write failed, now or before.
    pub(crate) fn finish(self) -> (Wire<'a, S>, Result<(), OutStop>)
        ensures same { result.0.lent.sink.ghost_name ≡ B.lender }
        ensures ok { OnOk result.1 (S.bytes result.0.lent.sink.now ≡
            appended B.bytes (taken_by self.entry.wire.told self.entry.sent self.entry.waiting.items)) }
        ensures whole { OnOk result.1 (self.entry.failures ≡ 0) }
        ensures front { IsFront result.0.told
            (taken_by self.entry.wire.told self.entry.sent self.entry.waiting.items) }
        ensures kept { S.bytes result.0.lent.sink.now ≡ appended B.bytes result.0.told }
        ensures failed { OnErr result.1 (has_risen B.faults (S.faults result.0.lent.sink.now) ≡ true) }
    {
        let mut out = self;
        let written = out.flush();
        let Buffered {
            wire,
            waiting: _,
            sent: _,
            failures: _,
            of: _,
        } = out;
        (wire, written)
    }
}
