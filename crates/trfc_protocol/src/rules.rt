//! What the protocol asks of the rules by which logs are read.

ghost use Rattle.std.specs.Prelude.{◌≡◌, ◌≤◌, IfOk};
ghost use Rattle.trfc_protocol.specs.Meaning.{Meaning};
ghost use Rattle.trfc_protocol.specs.Legal.{IsLegal, IsLawful};

use ale_base::{Fixed, OutOfMemory, SystemNo};
use std::alloc::Global;
use unit_core::{AleUnit, Record};

/// The rules of a landscape, by which its systems' logs are read. The protocol knows no more of documents, models and
/// functions than these tell.
pub trait Rules: Drop {
    // What the rules say.
    ghost meaning: { Self → Meaning };

    /// How many systems there are, from 1 to 16.
    fn systems(&self) -> u8
        ensures { result ≡ (meaning self.now).systems };

    /// The units that a legal log of this system commits, in order.
    fn units(
        &self,
        alloc: Global,
        system: SystemNo,
        log: &[Record],
    ) -> Result<Vec<AleUnit>, OutOfMemory>
        requires known { system ≤ (meaning self.now).systems }
        requires legal { IsLegal (meaning self.now) system log.now }
        ensures { IfOk result (λ units. units.items ≡ (meaning self.now).committed system log.now) };

    /// Whether a Commit, Dispatch, Put, App, Repost or Model may follow a legal log of this system.
    fn allows(
        &self,
        alloc: Global,
        system: SystemNo,
        log: &[Record],
        next: &Record,
    ) -> Result<bool, OutOfMemory>
        requires known { system ≤ (meaning self.now).systems }
        requires legal { IsLegal (meaning self.now) system log.now }
        ensures { IfOk result (λ allowed. allowed ≡ (meaning self.now).allows system log.now next.now) };

    /// Whether the system offers a function at the end of its legal log.
    fn offers(
        &self,
        alloc: Global,
        system: SystemNo,
        log: &[Record],
        function: &Fixed<30>,
    ) -> Result<bool, OutOfMemory>
        requires known { system ≤ (meaning self.now).systems }
        requires legal { IsLegal (meaning self.now) system log.now }
        ensures { IfOk result (λ offers. offers ≡ (meaning self.now).offers system log.now function.now) };

    // The laws of the rules: how units are numbered, which records commit them, and which may change what is offered.
    ghost lawful: { (rules : Self) → IsLawful (meaning rules) };
}
