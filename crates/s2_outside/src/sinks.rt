//! Sinks for bytes.
ghost use Rattle.std.specs.Prelude.{◌≡◌, ◌<◌, ◌≤◌, ℕ, List, Option, Some, [], take, length, IsErr, IfOk, OnErr, is_err};
ghost use Rattle.std.specs.Io.KnownBytes.{Keeps, Appends};
ghost use Rattle.s2_outside.specs.Count.{Rose};
ghost use Rattle.s2_outside.specs.Calls.{IsNextToFail, after_call, no_calls};

use super::calls::Calls;
use super::sources::Failed;
use std::alloc::Global;
use std::marker::Model;

/// A stream that bytes are written to, front to back.
pub trait Sink {
    /// The bytes that were taken, or `None` where the sink doesn't tell.
    ghost taken: { Self → Option (List ℕ) };

    /// How many faults there were so far.
    ghost faults: { Self → ℕ };

    /// Takes the first n bytes of the piece, at `Ok(n)`. `Ok(0)` for a piece that isn't empty is a
    /// fault, and counted as one. A fault that was got over may be counted at `Ok` too.
    fn write(&mut self, piece: &[u8]) -> Result<usize, Failed>
        ensures within { IfOk result (λ n. n ≤ length piece.now) }
        ensures took { IfOk result (λ n. Appends (taken self.old) (taken self.new) (take n piece.now)) }
        ensures refused { IfOk result (λ n. n ≡ 0 → 0 < length piece.now → Rose (faults self.old) (faults self.new)) }

        // A fault takes nothing, and has its cause in the count.
        ensures failed { OnErr result (Rose (faults self.old) (faults self.new)) }
        ensures kept { OnErr result (Keeps (taken self.old) (taken self.new)) }
        ensures later { faults self.old ≤ faults self.new };
}

/// A sink into memory, which fails at chosen calls. It tells what it took.
///
/// A call that finds no memory for its piece fails too, and is counted as a fault.
#[derive(Debug, Drop)]
pub struct MemSink {
    bytes: Vec<u8>,
    calls: Calls,
}

impl Model for MemSink {
    ghost use Rattle.s2_outside.specs.Streams.{Output};

    ghost Value = { Output };

    ghost view = { λ s. record { taken = s.bytes.items; calls = s.calls } };
}

impl MemSink {
    /// A sink that took nothing yet. `fails` has the numbers, from 1, of the calls that fail.
    pub fn new(alloc: Global, fails: Vec<u64>) -> MemSink
        ensures taken { result.taken ≡ [] }
        ensures calls { result.calls ≡ no_calls fails.items }
    {
        MemSink {
            bytes: Vec::new(alloc),
            calls: Calls::new(fails),
        }
    }

    /// The bytes that were taken so far.
    pub fn bytes(&self) -> &[u8]
        ensures { result.now ≡ self.now.taken }
    {
        self.bytes.as_slice()
    }
}

impl Sink for MemSink {
    ghost taken = { λ s. Some s.taken };

    ghost faults = { λ s. s.calls.faults };

    /// Takes the whole piece.
    fn write(&mut self, piece: &[u8]) -> Result<usize, Failed>
        ensures within { IfOk result (λ n. n ≤ length piece.now) }
        ensures took { IfOk result (λ n. Appends (Some self.old.taken) (Some self.new.taken) (take n piece.now)) }
        ensures refused { IfOk result (λ n. n ≡ 0 → 0 < length piece.now → Rose self.old.calls.faults self.new.calls.faults) }
        ensures failed { OnErr result (Rose self.old.calls.faults self.new.calls.faults) }
        ensures kept { OnErr result (Keeps (Some self.old.taken) (Some self.new.taken)) }
        ensures later { self.old.calls.faults ≤ self.new.calls.faults }

        // It fails at the chosen calls, and takes the whole piece.
        ensures chosen { IsNextToFail self.old.calls → IsErr result }
        ensures calls { self.new.calls ≡ after_call self.old.calls (is_err result) }
        ensures most { IfOk result (λ n. n ≡ length piece.now) }
    {
        let failed = self.calls.next_fails() || self.bytes.extend_from_slice(piece).is_err();
        self.calls.count(failed);
        if failed { Err(Failed) } else { Ok(piece.len()) }
    }
}
