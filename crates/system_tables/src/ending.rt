//! The end of a claim: its unit goes or is marked.

ghost use Rattle.std.specs.Prelude.{◌≡◌, ◌<◌, Some};
ghost use Rattle.plain_queues.specs.Queues.{claim_of};
ghost use Rattle.plain_queues.specs.Changes.{finished, marked};
ghost use Rattle.system_tables.specs.CanNote.{IsHeld};

use ale_base::{Mark, Tid};
use multi_queue::{Claim, Queues, Steps};
use std::marker::Brand;
use std::sync::ledger::{Blank, Ledger};

/// The unit of an id goes from its queues, and with it the claim of this number.
pub(crate) fn finish(queues: &mut Queues, tid: Tid, claim: Option<u64>)
    requires { IsHeld tid claim queues.old }
    ensures { queues.new ≡ finished tid queues.old }
{
    match claim {
        Some(number) => finish_from::<Brand>(queues, Claim { number, tid }, Blank::new(1)),
        // The record ends a claim, and its number is handed in.
        None => unreachable!(),
    }
}

/// The claim of this number is given up, and the unit of its id is marked.
pub(crate) fn mark(queues: &mut Queues, tid: Tid, cause: Mark, claim: Option<u64>)
    requires { IsHeld tid claim queues.old }
    ensures { queues.new ≡ marked cause tid queues.old }
{
    match claim {
        Some(number) => queues.mark(Claim { number, tid }, cause),
        // The record ends a claim, and its number is handed in.
        None => unreachable!(),
    }
}

/// The unit of a claim goes. The looks at queue entries, of which `finish` proves a bound, are counted in a ledger of their own.
fn finish_from<L: Ledger>(queues: &mut Queues, claim: Claim, blank: Blank)
    requires held { claim_of claim.tid queues.old ≡ Some claim.number }
    requires name { blank.name ≡ L.name }
    requires parts { blank.parts ≡ L.parts }
    requires some { 0 < blank.parts }
    ensures { queues.new ≡ finished claim.tid queues.old }
{
    let mut steps: Steps<L> = Steps::new(blank);
    queues.finish(claim, &mut steps);
}
