//! Bytes that are not read yet.

ghost use Rattle.std.specs.Prelude.{◌≡◌, length, IfOk};
ghost use Rattle.std.specs.Int.{w8, w16, w32, w64};
ghost use Rattle.unit_codec.specs.Reading.{Takes, SkipsByte};
ghost use Rattle.unit_codec.specs.Kind.{part, plain, number, byte, sized};

use crate::fault::FieldFault;
use std::marker::Model;

/// Bytes that are not read yet. Contracts see the bytes.
#[derive(Drop)]
pub(crate) struct Unread<'a> {
    bytes: &'a [u8],
}

impl<'a> Model for Unread<'a> {
    ghost use Rattle.std.specs.Prelude.{ℕ, List};

    ghost Value = { List ℕ };

    ghost view = { λ unread. unread.bytes.now };
}

impl<'a> Unread<'a> {
    /// All of these bytes.
    pub(crate) fn new(bytes: &'a [u8]) -> Unread<'a>
        ensures { result ≡ bytes.now }
    {
        Unread { bytes }
    }

    /// How many bytes are left.
    pub(crate) fn left(&self) -> usize
        ensures { result ≡ length self.now }
    {
        self.bytes.len()
    }

    /// Takes this byte from the front, where it is the first one.
    pub(crate) fn skips(&mut self, byte: u8) -> bool
        ensures { SkipsByte byte self.old self.new result }
    {
        match self.bytes {
            [first, rest @ ..] if *first == byte => {
                self.bytes = rest;
                true
            }
            _ => false,
        }
    }

    /// So many bytes, of a field that began where `left` bytes were left.
    pub(crate) fn part(&mut self, left: usize, count: usize) -> Result<&'a [u8], FieldFault>
        ensures { Takes (λ x. x.now) result self.new (part left count self.old) }
    {
        if self.bytes.len() < count {
            return Err(FieldFault::Bad(left));
        }
        let (front, rest) = self.bytes.split_at(count);
        self.bytes = rest;
        Ok(front)
    }

    /// The next `N` bytes.
    #[tactic(auto, unfolding(crate::specs::Kind::plain))]
    pub(crate) fn plain<const N: usize>(&mut self) -> Result<[u8; N], FieldFault>
        ensures { Takes (λ x. x) result self.new ((plain N).read self.old) }
    {
        match self.bytes.split_first_chunk::<N>() {
            None => Err(FieldFault::Bad(self.bytes.len())),
            Some((front, rest)) => {
                self.bytes = rest;
                Ok(*front)
            }
        }
    }

    /// A number of one byte.
    #[tactic(auto, unfolding(crate::specs::Kind::number))]
    pub(crate) fn byte(&mut self) -> Result<u8, FieldFault>
        ensures { Takes (λ n. n) result self.new (byte.read self.old) }
    {
        Ok(u8::from_be_bytes(self.plain()?))
    }

    /// A number of two bytes.
    #[tactic(auto, unfolding(crate::specs::Kind::number))]
    pub(crate) fn two_bytes(&mut self) -> Result<u16, FieldFault>
        ensures { Takes (λ n. n) result self.new ((number w16).read self.old) }
    {
        Ok(u16::from_be_bytes(self.plain()?))
    }

    /// A number of four bytes.
    #[tactic(auto, unfolding(crate::specs::Kind::number))]
    pub(crate) fn four_bytes(&mut self) -> Result<u32, FieldFault>
        ensures { Takes (λ n. n) result self.new ((number w32).read self.old) }
    {
        Ok(u32::from_be_bytes(self.plain()?))
    }

    /// A number of eight bytes.
    #[tactic(auto, unfolding(crate::specs::Kind::number))]
    pub(crate) fn eight_bytes(&mut self) -> Result<u64, FieldFault>
        ensures { Takes (λ n. n) result self.new ((number w64).read self.old) }
    {
        Ok(u64::from_be_bytes(self.plain()?))
    }

    /// Bytes behind their length in one byte.
    #[tactic(auto, unfolding(crate::specs::Kind::sized))]
    pub(crate) fn short_text(&mut self) -> Result<&'a [u8], FieldFault>
        ensures { Takes (λ text. text.now) result self.new ((sized w8).read self.old) }
    {
        let left = self.left();
        let length = self.byte()?;
        self.part(left, usize::from(length))
    }

    /// Bytes behind their length in two bytes.
    #[tactic(auto, unfolding(crate::specs::Kind::sized))]
    pub(crate) fn middle_text(&mut self) -> Result<&'a [u8], FieldFault>
        ensures { Takes (λ text. text.now) result self.new ((sized w16).read self.old) }
    {
        let left = self.left();
        let length = self.two_bytes()?;
        self.part(left, usize::from(length))
    }

    /// Bytes behind their length in four bytes.
    #[tactic(auto, unfolding(crate::specs::Kind::sized))]
    pub(crate) fn long_text(&mut self) -> Result<&'a [u8], FieldFault>
        ensures { Takes (λ text. text.now) result self.new ((sized w32).read self.old) }
    {
        let left = self.left();
        let length = self.four_bytes()?;
        self.part(left, length as usize)
    }
}
