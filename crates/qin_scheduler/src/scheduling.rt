//! The next claim.

ghost use Rattle.std.specs.Prelude.{◌≡◌, ◌↔◌, false, Some, IsNone, IfSome, IfNone};
ghost use Rattle.ale_base.specs.Tid.{TidOf};
ghost use Rattle.plain_queues.specs.Offered.{is_offered, first_offered};
ghost use Rattle.plain_queues.specs.Changes.{claimed};

use multi_queue::{Claim, Queues};

/// Claims the offered inbound unit that was added first, under a number. None exactly where no unit is offered, and then nothing
/// has changed.
pub fn next(queues: &mut Queues, number: u64) -> Option<Claim>
    ensures first { IfSome result (λ claim. first_offered queues.old ≡ Some claim.tid) }
    ensures number { IfSome result (λ claim. claim.number ≡ number) }
    ensures claimed { IfSome result (λ claim. queues.new ≡ claimed number claim.tid queues.old) }
    ensures none { IsNone result ↔ ((tid : TidOf) → is_offered tid queues.old ≡ false) }
    ensures unchanged { IfNone result (queues.new ≡ queues.old) }
{
    let tid = queues.first_offered()?;
    queues.claim(tid, number).ok()
}
