//! Reading what decides the log of a volume, once it is on the disk for good.

ghost use Rattle.std.specs.Prelude.{◌≡◌, ◌≢◌, ℕ, List, ◌<◌, length, take, IfOk, OnOk, IsErrOf};
ghost use Rattle.ale_volumes.specs.Volume.{IsImage, settled};
ghost use Rattle.ale_volumes.specs.Clock.{LeavesOnly, KeepsOthers};
ghost use Rattle.ale_volumes.specs.Faults.{CountsFault};
ghost use Rattle.byte_journal.specs.Log.{front_of};
ghost use Rattle.byte_journal.specs.Settled.{LeavesOnlyFromSync};

use crate::{Journal, OpenFault};
use ale_volumes::Volumes;
use std::alloc::Global;

/// The bytes of a volume that decide its log, which are on the disk for good before they are read.
pub(crate) fn read_durable<V: Volumes>(
    alloc: Global,
    vols: &mut V,
    n: u8,
) -> Result<Vec<u8>, OpenFault>
    requires { n < 16 }
    ensures read { V.disk.told → IfOk result (λ bytes. bytes.items ≡ front_of (V.disk.volume vols.old n).contents) }
    ensures durable { V.disk.told → result ≢ Err OpenFault.Volume →
        V.disk.volume vols.new n ≡ settled (V.disk.volume vols.old n).contents }
    ensures kept { V.disk.told → (V.disk.volume vols.new n).contents ≡ (V.disk.volume vols.old n).contents }
    ensures any_moment { V.disk.told → LeavesOnly V.disk vols.old vols.new n (IsImage (V.disk.volume vols.old n)) }
    ensures from_sync { V.disk.told → LeavesOnlyFromSync V.disk vols.old vols.new n
        (IsErrOf result OpenFault.Volume) (λ image. image ≡ (V.disk.volume vols.old n).contents) }
    ensures others { V.disk.told → KeepsOthers V.disk vols.old vols.new n }
    ensures undamaged { (place : ℕ) → result ≡ Err (OpenFault.Damaged place) → ⊥ }
    ensures faults { CountsFault (IsErrOf result OpenFault.Volume) (V.disk.faults vols.old) (V.disk.faults vols.new) n }
{
    vols.sync(n)?;
    read_front(alloc, vols, n)
}

/// The bytes of a volume that decide its log: as many as gates may lie in, and one more.
fn read_front<V: Volumes>(alloc: Global, vols: &mut V, n: u8) -> Result<Vec<u8>, OpenFault>
    requires { n < 16 }
    ensures read { V.disk.told → IfOk result (λ bytes. bytes.items ≡ front_of (V.disk.volume vols.old n).contents) }
    ensures same { V.disk.told → V.disk.volume vols.new n ≡ V.disk.volume vols.old n }
    ensures any_moment { V.disk.told → LeavesOnly V.disk vols.old vols.new n (IsImage (V.disk.volume vols.old n)) }
    ensures others { V.disk.told → KeepsOthers V.disk vols.old vols.new n }
    ensures undamaged { (place : ℕ) → result ≡ Err (OpenFault.Damaged place) → ⊥ }
    ensures faults { CountsFault (IsErrOf result OpenFault.Volume) (V.disk.faults vols.old) (V.disk.faults vols.new) n }
{
    let mut bytes = Vec::new(alloc);
    read_on(vols, n, &mut bytes)?;
    Ok(bytes)
}

/// Reads on behind the bytes that were read of a volume, up to its end or to the last byte that decides its log.
///
/// An open gate is the last byte where a run was cut off. But where another run is at work it may be the gate of a record
/// that it has written since the length was asked for; so the length is asked for again, and that record read.
fn read_on<V: Volumes>(vols: &mut V, n: u8, bytes: &mut Vec<u8>) -> Result<(), OpenFault>
    requires { n < 16 }
    ensures read { V.disk.told → bytes.old.items ≡ take (length bytes.old.items) (front_of (V.disk.volume vols.old n).contents) →
        OnOk result (bytes.new.items ≡ front_of (V.disk.volume vols.old n).contents) }
    ensures same { V.disk.told → V.disk.volume vols.new n ≡ V.disk.volume vols.old n }
    ensures any_moment { V.disk.told → LeavesOnly V.disk vols.old vols.new n (IsImage (V.disk.volume vols.old n)) }
    ensures others { V.disk.told → KeepsOthers V.disk vols.old vols.new n }
    ensures undamaged { (place : ℕ) → result ≡ Err (OpenFault.Damaged place) → ⊥ }
    ensures faults { CountsFault (IsErrOf result OpenFault.Volume) (V.disk.faults vols.old) (V.disk.faults vols.new) n }
{
    let length = vols.length(n)?.min(Journal::MOST_BYTES + 1) as usize;
    let so_far = bytes.len();
    if length < so_far {
        return Ok(());
    }
    bytes.resize(length, 0)?;
    let (_, behind) = bytes.as_mut_slice().split_at_mut(so_far);
    vols.read_at(n, so_far as u64, behind)?;
    if length > so_far && bytes[length - 1] == Journal::OPEN_GATE {
        read_on(vols, n, bytes)
    } else {
        Ok(())
    }
}
