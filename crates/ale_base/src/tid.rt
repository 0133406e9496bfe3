//! Transaction ids and their one spelling.

ghost use Rattle.std.specs.Prelude.{◌≡◌, ◌≤◌, Some};

use crate::SystemNo;
use crate::hexadecimal::{number_of, put_digits};
use std::marker::Model;

/// The transaction id of a unit of work: the system that committed it, and its number there, from 1 to 65,536.
/// Contracts see both numbers. Ids are in the order of their systems, and of their numbers there.
#[derive(Clone, Copy, Debug, PartialEq, Eq, PartialOrd, Ord)]
pub struct Tid {
    system: SystemNo,
    unit: u32,
}

impl Model for Tid {
    ghost use Rattle.ale_base.specs.Tid.{TidOf, IsTid};

    ghost Value = { TidOf };

    ghost view = { λ t. record { system = t.system; unit = t.unit } };

    ghost invariant = { λ t. IsTid (record { system = t.system; unit = t.unit }) };

    ghost inverse = { λ t. record { system = t.system; unit = t.unit } };
}

impl Tid {
    ghost use Rattle.std.specs.Prelude.{◌≡◌, ◌≤◌, length, Some, IfSome};
    ghost use Rattle.ale_base.specs.Tid.{TidOf, IsTid, spelling, tid_of};

    /// The most units of a system.
    pub const MAX_UNIT: u32 = 65_536;

    /// The length of a spelling, in bytes.
    pub const LEN: usize = 24;

    /// The id of a system's unit.
    pub fn of(system: SystemNo, unit: u32) -> Tid
        requires least { 1 ≤ unit }
        requires most { unit ≤ 65536 }
        ensures { result ≡ record { system = system; unit = unit } }
    {
        let _number = system.get();
        Tid { system, unit }
    }

    /// The system that committed the unit.
    pub fn system(&self) -> SystemNo
        ensures { result ≡ self.now.system }
    {
        self.system
    }

    /// The unit's number at its system, from 1 to 65,536.
    pub fn unit(&self) -> u32
        ensures number { result ≡ self.now.unit }
        ensures least { 1 ≤ self.now.unit }
        ensures most { self.now.unit ≤ 65536 }
    {
        self.unit
    }

    /// The one spelling of the id, in 24 bytes: the system in 8 upper case hexadecimal digits, `0001`, and the unit
    /// in 12.
    pub fn bytes(&self) -> [u8; 24]
        ensures { result ≡ spelling self.now }
    {
        let mut bytes = *b"000000000001000000000000";
        let (system, rest) = bytes.split_at_mut(8);
        let (_, unit) = rest.split_at_mut(4);
        put_digits(system, u32::from(self.system.get()));
        put_digits(unit, self.unit);
        bytes
    }

    /// The id that these bytes spell. None exactly where they spell none.
    pub fn read(bytes: &[u8]) -> Option<Tid>
        ensures found { (tid : TidOf) → result ≡ Some tid → IsTid tid × (bytes.now ≡ spelling tid) }
        ensures spelled { (tid : TidOf) → IsTid tid → bytes.now ≡ spelling tid → result ≡ Some tid }
        ensures computed { result ≡ tid_of bytes.now }
    {
        Tid::spelled_by(bytes)
    }

    /// The id whose spelling these bytes are.
    fn spelled_by(bytes: &[u8]) -> Option<Tid>
        ensures found { (tid : TidOf) → result ≡ Some tid → IsTid tid × (bytes.now ≡ spelling tid) }
        ensures spelled { (tid : TidOf) → IsTid tid → bytes.now ≡ spelling tid → result ≡ Some tid }
    {
        if bytes.len() != Tid::LEN {
            return None;
        }
        let (system, rest) = bytes.split_at(8);
        let (_, unit) = rest.split_at(4);
        let tid = Tid::with_numbers(number_of(system), number_of(unit))?;
        if tid.bytes().as_slice() != bytes {
            return None;
        }
        Some(tid)
    }

    /// The id with these numbers. None exactly where one of them is out of its range.
    fn with_numbers(system: u64, unit: u64) -> Option<Tid>
        ensures found { IfSome result IsTid }
        ensures exact { (tid : TidOf) → IsTid tid → tid.system ≡ system → tid.unit ≡ unit → result ≡ Some tid }
    {
        let system = SystemNo::of(u8::try_from(system).ok()?)?;
        let unit = u32::try_from(unit).ok()?;
        if unit == 0 || unit > Tid::MAX_UNIT {
            return None;
        }
        Some(Tid::of(system, unit))
    }
}
