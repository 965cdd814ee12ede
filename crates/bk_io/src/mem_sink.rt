// Sinks over bytes in memory.
ghost use Rattle.std.specs.Prelude.{◌≡◌, ◌↔◌, ◌+◌, ◌-◌, ◌^◌, ◌<◌, ◌≤◌, ◌++◌, [], All, Contains, Some, min};
ghost use Rattle.std.specs.Prelude.{length, take, vec_len, vec_capacity, OnOk, OnErr, IfOk, IfErr};
ghost use Rattle.bk_io.specs.Counts.{counted, CountsCalls, HasCause, Rose};
ghost use Rattle.bk_io.specs.Parts.{pieces_in};
ghost use Rattle.bk_io.specs.Pieces.{IsTaken, taken_of};

use crate::part::Part;
use crate::schedule::Schedule;
use crate::store::Store;
use crate::{Memory, Sink, SinkFault};
use std::alloc::Global;

/// Bytes in memory, taken in small steps, some puts of which fail.
#[derive(Drop)]
pub struct MemSink {
    store: Store,
    step: usize,
    schedule: Schedule,
    ghost steps: { 0 < step },
}

impl MemSink {
    ghost use Rattle.bk_io.specs.Devices.{sink_written, sink_pieces, sink_room, sink_step, sink_failing, sink_calls, sink_faults};

    /// A sink with memory for `room` bytes, which takes at most `step` bytes of a piece. The puts whose numbers,
    /// from 1, are in `failing` fail.
    pub fn new(
        alloc: Global,
        room: usize,
        step: usize,
        failing: Vec<u64>,
    ) -> Result<MemSink, Memory>
        requires step { 0 < step }
        requires numbers { All (λ n. n < 2 ^ 64 - 1) failing.items }
        ensures written { IfOk result (λ sink. sink_written sink ≡ []) }
        ensures pieces { IfOk result (λ sink. sink_pieces sink ≡ []) }
        ensures room { IfOk result (λ sink. sink_room sink ≡ room) }
        ensures step { IfOk result (λ sink. sink_step sink ≡ step) }
        ensures failing { IfOk result (λ sink. sink_failing sink ≡ failing.items) }
        ensures calls { IfOk result (λ sink. sink_calls sink ≡ 0) }
        ensures faults { IfOk result (λ sink. sink_faults sink ≡ 0) }
    {
        Ok(MemSink {
            store: Store::new(alloc, room)?,
            step,
            schedule: Schedule::new(failing),
        })
    }

    /// All bytes taken so far.
    pub fn written(&self) -> &[u8]
        ensures { result.now ≡ sink_written self.now }
    {
        self.store.bytes()
    }

    /// What it took at each put that it took bytes of, in order.
    pub fn parts(&self) -> &[Part]
        ensures { pieces_in result.now (sink_written self.now) ≡ sink_pieces self.now }
    {
        self.store.parts()
    }
}

impl Sink for MemSink {
    ghost use Rattle.bk_io.specs.Devices.{sink_written, sink_pieces, sink_room, sink_step, sink_failing, sink_calls, sink_faults};

    ghost written = { λ sink. Some (sink_written sink) };

    ghost pieces = { λ sink. Some (sink_pieces sink) };

    ghost faults = { sink_faults };

    fn put(&mut self, piece: &[u8]) -> Result<usize, SinkFault>
        ensures taken { IfOk result (IsTaken piece.now) }
        ensures ok { IfOk result (λ n. sink_written self.new ≡ sink_written self.old ++ take n piece.now) }
        ensures err { OnErr result (sink_written self.new ≡ sink_written self.old) }
        ensures failed { HasCause SinkFault.Failed (sink_faults self.old) (sink_faults self.new) result }
        // The puts that are to fail do, and no others.
        ensures scheduled { (result ≡ Err SinkFault.Failed) ↔
            Contains (sink_failing self.old) (sink_calls self.old + 1) }
        ensures step { IfOk result (λ n. n ≡ min (sink_step self.old) (length piece.now)) }
        // Memory runs out only where the bytes would pass the room.
        ensures memory { result ≡ Err SinkFault.Memory →
            sink_room self.old < length (sink_written self.old) + min (sink_step self.old) (length piece.now) }
        ensures calls { sink_calls self.new ≡ counted (sink_calls self.old) }
        ensures faults { CountsCalls SinkFault.Failed (sink_faults self.old) (sink_faults self.new) result }
        // So the count of faults rises with a failed put alone.
        ensures rises { Rose (sink_faults self.old) (sink_faults self.new) ↔ (result ≡ Err SinkFault.Failed) }
        ensures same_failing { sink_failing self.new ≡ sink_failing self.old }
        ensures same_step { sink_step self.new ≡ sink_step self.old }
        ensures same_room { sink_room self.new ≡ sink_room self.old }
        ensures told { IfOk result (λ n. sink_pieces self.new ≡ sink_pieces self.old ++ taken_of piece.now n) }
        ensures untold { OnErr result (sink_pieces self.new ≡ sink_pieces self.old) }
    {
        if self.schedule.fails() {
            return Err(SinkFault::Failed);
        }
        let count = self.step.min(piece.len());
        self.store.append(piece, count)?;
        Ok(count)
    }
}

/// Bytes in memory, taken piece by piece, whose puts never fail.
#[derive(Drop)]
pub struct SureSink {
    store: Store,
}

impl SureSink {
    ghost use Rattle.bk_io.specs.Devices.{sure_written, sure_pieces, sure_room};

    /// A sink with memory for `room` bytes.
    pub fn new(alloc: Global, room: usize) -> Result<SureSink, Memory>
        ensures written { IfOk result (λ sink. sure_written sink ≡ []) }
        ensures pieces { IfOk result (λ sink. sure_pieces sink ≡ []) }
        ensures room { IfOk result (λ sink. sure_room sink ≡ room) }
    {
        Ok(SureSink {
            store: Store::new(alloc, room)?,
        })
    }

    /// All bytes taken so far.
    pub fn written(&self) -> &[u8]
        ensures { result.now ≡ sure_written self.now }
    {
        self.store.bytes()
    }

    /// What it took at each put that it took bytes of, in order.
    pub fn parts(&self) -> &[Part]
        ensures { pieces_in result.now (sure_written self.now) ≡ sure_pieces self.now }
    {
        self.store.parts()
    }
}

impl Sink for SureSink {
    ghost use Rattle.bk_io.specs.Devices.{sure_written, sure_pieces, sure_room};

    ghost written = { λ sink. Some (sure_written sink) };

    ghost pieces = { λ sink. Some (sure_pieces sink) };

    ghost faults = { λ _. 0 };

    fn put(&mut self, piece: &[u8]) -> Result<usize, SinkFault>
        ensures taken { IfOk result (IsTaken piece.now) }
        ensures ok { IfOk result (λ n. sure_written self.new ≡ sure_written self.old ++ take n piece.now) }
        ensures err { OnErr result (sure_written self.new ≡ sure_written self.old) }
        ensures whole { IfOk result (λ n. n ≡ length piece.now) }
        // Memory alone runs out, and only where the bytes would pass the room.
        ensures memory { IfErr result (λ e. e ≡ SinkFault.Memory) }
        ensures full { OnErr result (sure_room self.old < length (sure_written self.old) + length piece.now) }
        ensures same_room { sure_room self.new ≡ sure_room self.old }
        ensures told { IfOk result (λ n. sure_pieces self.new ≡ sure_pieces self.old ++ taken_of piece.now n) }
        ensures untold { OnErr result (sure_pieces self.new ≡ sure_pieces self.old) }
    {
        self.store.append(piece, piece.len())?;
        Ok(piece.len())
    }
}
