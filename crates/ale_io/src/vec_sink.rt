//! A sink in memory.

use crate::{Calls, Sink, SinkFailed};
use ale_base::Items;

/// A sink in memory, of which chosen calls fail: such a call takes the first half of its bytes, rounded down. A call
/// for which there is no memory takes none of them, and is a fault too.
#[derive(Drop)]
pub struct VecSink {
    /// What was put.
    pub bytes: Vec<u8>,
    /// The calls of `put`.
    pub calls: Calls,
}

impl Sink for VecSink {
    ghost use Rattle.std.specs.Prelude.{◌≡◌, ◌⊎◌, ◌+◌, ◌-◌, ◌/◌, ◌^◌, ◌++◌, ◌<◌, length, take, min, Contains, Some, OnOk, OnErr, IsOk, IsErr, vec_len, vec_capacity};
    ghost use Rattle.std.specs.Io.KnownBytes.{Appends};
    ghost use Rattle.ale_io.specs.FaultCount.{IsCounted, CountsOne};
    ghost use Rattle.ale_io.specs.Written.{AppendsFront};

    ghost contents = { λ sink. Some sink.bytes.items };

    ghost faults = { λ sink. sink.calls.faults };

    fn put(&mut self, bytes: &[u8]) -> Result<(), SinkFailed>
        ensures ok { OnOk result (Appends (Some self.old.bytes.items) (Some self.new.bytes.items) bytes.now) }
        ensures err { OnErr result (AppendsFront (Some self.old.bytes.items) (Some self.new.bytes.items) bytes.now) }
        ensures faults { IsCounted (IsErr result) (IsOk result) self.old.calls.faults self.new.calls.faults }

        // The calls that are to fail do, and take half of the bytes, or none where there is no room for the half.
        ensures chosen { Contains self.old.calls.failing self.new.calls.made → IsErr result
            × ((self.new.bytes.items ≡ self.old.bytes.items ++ take (length bytes.now / 2) bytes.now)
            ⊎ ((self.new.bytes.items ≡ self.old.bytes.items)
            × (vec_capacity self.old.bytes < vec_len self.old.bytes + length bytes.now / 2))) }
        // Any other call fails only where there is no room for the bytes, and takes none of them.
        ensures full { (Contains self.old.calls.failing self.new.calls.made → ⊥)
            → OnErr result ((self.new.bytes.items ≡ self.old.bytes.items)
            × (vec_capacity self.old.bytes < vec_len self.old.bytes + length bytes.now)) }
        ensures one_fault { CountsOne (IsErr result) self.old.calls.faults self.new.calls.faults }
        ensures made { self.new.calls.made ≡ min (self.old.calls.made + 1) (2 ^ 64 - 1) }
        ensures failing { self.new.calls.failing ≡ self.old.calls.failing }
    {
        if self.calls.next_fails() {
            let _ = self.bytes.extend_from_slice(&bytes[..bytes.len() / 2]);
            return Err(SinkFailed);
        }
        if self.bytes.extend_from_slice(bytes).is_err() {
            self.calls.fault();
            return Err(SinkFailed);
        }
        Ok(())
    }
}
