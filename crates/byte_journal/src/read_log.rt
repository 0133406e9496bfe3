//! Reading the log that bytes stand for.

ghost use Rattle.std.specs.Prelude.{◌≡◌, ℕ, List, ◌+◌, ◌<◌, length, slice_index, IfSome, IfNone, IsTrue, ◌↔◌};
ghost use Rattle.byte_journal.specs.Log.{BeginsWithRecord, open_gate};
ghost use Rattle.byte_journal.specs.steps.Reading.{Reads};

use crate::{Journal, OpenFault};
use ale_base::Items;
use std::alloc::Global;

/// The log that the bytes stand for, and the place of its last gate.
pub(crate) fn read_log(alloc: Global, bytes: &[u8]) -> Result<(Items<Items<u8>>, usize), OpenFault>
    ensures { Reads bytes.now result }
{
    let mut log = Items::new(alloc);
    let mut gate = 0;
    'records: while is_open_before_more(bytes, gate) {
        let (_, behind) = bytes.split_at(gate + 1);
        let Some(body) = body_of(behind, gate) else {
            return Err(OpenFault::Damaged(gate as u64));
        };
        log.push(Items::from_vec(Vec::from_slice(alloc, body)?))?;
        gate += 5 + body.len();
    }
    Ok((log, gate))
}

/// Whether an open gate stands at the place and is not the last byte.
fn is_open_before_more(bytes: &[u8], gate: usize) -> bool
    ensures { IsTrue result ↔ ((gate + 1 < length bytes.now) × (slice_index bytes.now gate ≡ open_gate)) }
{
    bytes.len() > gate && bytes.len() - gate > 1 && bytes[gate] == Journal::OPEN_GATE
}

/// The body of the record behind the open gate at a place. None exactly where no record lies there.
fn body_of(behind: &[u8], place: usize) -> Option<&[u8]>
    requires { place < Journal.MOST_BYTES }
    ensures found { IfSome result (λ body. BeginsWithRecord place behind.now body.now) }
    ensures none { IfNone result ((body : List ℕ) → BeginsWithRecord place behind.now body → ⊥) }
{
    let (length, rest) = behind.split_first_chunk::<4>()?;
    let length = u32::from_be_bytes(*length) as usize;
    if length == 0 || length >= rest.len() || place + 5 + length >= Journal::MOST_BYTES as usize {
        return None;
    }
    let (body, _) = rest.split_at(length);
    Some(body)
}
