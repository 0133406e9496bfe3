//! What a landscape hands out: claims on units, and receipts of them.

ghost use Rattle.std.specs.Prelude.{◌≡◌};

use ale_base::{SystemNo, Tid};

/// A claim to ship a unit. Only a landscape makes one.
#[derive(Drop)]
pub struct OutClaim {
    pub(crate) number: u64,
    pub(crate) tid: Tid,
    pub(crate) receiver: SystemNo,
    pub(crate) opening: u64,
}

impl OutClaim {
    /// Its number. No two claims of a landscape have one number.
    pub fn number(&self) -> u64
        ensures { result ≡ self.now.number }
    {
        self.number
    }

    /// The unit's transaction id.
    pub fn tid(&self) -> Tid
        ensures { result ≡ self.now.tid }
    {
        self.tid
    }

    /// The unit's receiver.
    pub fn receiver(&self) -> SystemNo
        ensures { result ≡ self.now.receiver }
    {
        self.receiver
    }

    /// How many falls there had been when the claim was made.
    pub fn opening(&self) -> u64
        ensures { result ≡ self.now.opening }
    {
        self.opening
    }
}

/// A claim to execute a unit that was taken in, or to run one as it arrives. Only a landscape makes one.
#[derive(Drop)]
pub struct InClaim {
    pub(crate) number: u64,
    pub(crate) tid: Tid,
    pub(crate) system: SystemNo,
    pub(crate) opening: u64,
}

impl InClaim {
    /// Its number. No two claims of a landscape have one number.
    pub fn number(&self) -> u64
        ensures { result ≡ self.now.number }
    {
        self.number
    }

    /// The unit's transaction id.
    pub fn tid(&self) -> Tid
        ensures { result ≡ self.now.tid }
    {
        self.tid
    }

    /// The system that executes the unit.
    pub fn system(&self) -> SystemNo
        ensures { result ≡ self.now.system }
    {
        self.system
    }

    /// How many falls there had been when the claim was made.
    pub fn opening(&self) -> u64
        ensures { result ≡ self.now.opening }
    {
        self.opening
    }
}

/// Tells a sender that its unit was received. Only a landscape makes one.
#[derive(Drop)]
pub struct Receipt {
    pub(crate) tid: Tid,
}

impl Receipt {
    /// The unit's transaction id.
    pub fn tid(&self) -> Tid
        ensures { result ≡ self.now.tid }
    {
        self.tid
    }
}
