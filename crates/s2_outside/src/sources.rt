//! Sources of bytes.
ghost use Rattle.std.specs.Prelude.{◌≡◌, ◌↔◌, ◌+◌, ◌++◌, ◌<◌, ◌≤◌, ℕ, List, Option, Some, min, take, drop, length, IsErr, IfOk, OnErr, is_err};
ghost use Rattle.std.specs.Io.KnownBytes.{Keeps, Consumes, IsAtEnd};
ghost use Rattle.s2_outside.specs.Count.{Rose};
ghost use Rattle.s2_outside.specs.Calls.{IsNextToFail, after_call, no_calls};

use super::calls::Calls;
use std::fmt;
use std::marker::Model;

/// A call of a source or a sink has failed.
#[derive(Clone, Copy, Debug, PartialEq, Eq)]
pub struct Failed;

impl fmt::Display for Failed {
    fn fmt<W: fmt::Write>(&self, f: &mut fmt::Formatter<W>) -> fmt::Result {
        write!(f, "the stream failed")
    }
}

impl std::error::Error for Failed {}

/// A stream of bytes that is read once, front to back.
pub trait Source {
    /// The bytes that are left, or `None` where the source doesn't tell.
    ghost left: { Self → Option (List ℕ) };

    /// How many faults there were so far.
    ghost faults: { Self → ℕ };

    /// Moves the next n bytes to the front of `buf`, at `Ok(n)`. `Ok(0)` for a `buf` that has room
    /// is the end of the input. A fault that was got over may be counted at `Ok` too.
    fn read(&mut self, buf: &mut [u8]) -> Result<usize, Failed>
        ensures within { IfOk result (λ n. n ≤ length buf.new) }
        ensures moved { IfOk result (λ n. Consumes (left self.old) (left self.new) (take n buf.new)) }
        ensures untouched { IfOk result (λ n. drop n buf.new ≡ drop n buf.old) }
        ensures end { IfOk result (λ n. n ≡ 0 → 0 < length buf.new → IsAtEnd (left self.new)) }

        // A fault takes nothing, and has its cause in the count.
        ensures failed { OnErr result (Rose (faults self.old) (faults self.new)) }
        ensures kept { OnErr result (Keeps (left self.old) (left self.new)) }
        ensures unfilled { OnErr result (buf.new ≡ buf.old) }
        ensures later { faults self.old ≤ faults self.new };
}

/// A source over bytes in memory, which fails at chosen calls. It tells what is left.
#[derive(Debug, Drop)]
pub struct MemSource {
    bytes: Vec<u8>,
    at: usize,
    calls: Calls,
}

impl Model for MemSource {
    ghost use Rattle.std.specs.Prelude.{drop, ◌≤◌, vec_len};
    ghost use Rattle.s2_outside.specs.Streams.{Input};

    ghost Value = { Input };

    ghost view = { λ s. record { left = drop s.at s.bytes.items; calls = s.calls } };

    ghost invariant = { λ s. s.at ≤ vec_len s.bytes };
}

impl MemSource {
    /// A source of these bytes. `fails` has the numbers, from 1, of the calls that fail.
    pub fn new(bytes: Vec<u8>, fails: Vec<u64>) -> MemSource
        ensures left { result.left ≡ bytes.items }
        ensures calls { result.calls ≡ no_calls fails.items }
    {
        MemSource {
            bytes,
            at: 0,
            calls: Calls::new(fails),
        }
    }

    fn take_front(&mut self, buf: &mut [u8]) -> usize
        ensures count { result ≡ min (length buf.old) (length self.old.left) }
        ensures front { buf.new ≡ take result self.old.left ++ drop result buf.old }
        ensures left { self.new.left ≡ drop result self.old.left }
        ensures calls { self.new.calls ≡ self.old.calls }
    {
        let (_, left) = self.bytes.as_slice().split_at(self.at);
        let n = buf.len().min(left.len());
        buf[..n].copy_from_slice(&left[..n]);
        self.at += n;
        n
    }
}

impl Source for MemSource {
    ghost left = { λ s. Some s.left };

    ghost faults = { λ s. s.calls.faults };

    /// Gives as many bytes as `buf` has room for, or all that are left.
    fn read(&mut self, buf: &mut [u8]) -> Result<usize, Failed>
        ensures within { IfOk result (λ n. n ≤ length buf.new) }
        ensures moved { IfOk result (λ n. Consumes (Some self.old.left) (Some self.new.left) (take n buf.new)) }
        ensures untouched { IfOk result (λ n. drop n buf.new ≡ drop n buf.old) }
        ensures end { IfOk result (λ n. n ≡ 0 → 0 < length buf.new → IsAtEnd (Some self.new.left)) }
        ensures failed { OnErr result (Rose self.old.calls.faults self.new.calls.faults) }
        ensures kept { OnErr result (Keeps (Some self.old.left) (Some self.new.left)) }
        ensures unfilled { OnErr result (buf.new ≡ buf.old) }
        ensures later { self.old.calls.faults ≤ self.new.calls.faults }

        // It fails exactly at the chosen calls, and gives no less than it can.
        ensures chosen { IsErr result ↔ IsNextToFail self.old.calls }
        ensures calls { self.new.calls ≡ after_call self.old.calls (is_err result) }
        ensures most { IfOk result (λ n. n ≡ min (length buf.new) (length self.old.left)) }
    {
        let fails = self.calls.next_fails();
        self.calls.count(fails);
        if fails {
            return Err(Failed);
        }
        Ok(self.take_front(buf))
    }
}
