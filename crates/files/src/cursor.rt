//! Reading a file one number after another.

ghost use Rattle.std.specs.Prelude.{◌≡◌, ◌+◌, ◌≤◌, ◌↔◌, IsTrue, length, take, drop, IsOk, IfErr, IfOk, OnOk};
ghost use Rattle.files.specs.Parse.{number_at, ranged_at};
ghost use Rattle.files.specs.Marks.{mark_at};
ghost use Rattle.files.specs.Position.{further, behind_mark};

use crate::faults::FileFault;
use crate::marks::Mark;
use std::marker::Model;

/// Where a file is read, and where the record began that is being read.
// Kept: a floor's number of places goes beside it, since it is not known where reading begins; the allocator, as in the library.
#[derive(Drop)]
pub(crate) struct Cursor<'b> {
    bytes: &'b [u8],
    record_at: usize,
    at: usize,
}

impl<'b> Model for Cursor<'b> {
    ghost use Rattle.std.specs.Prelude.{◌≤◌, length};
    ghost use Rattle.files.specs.Position.{Position};

    ghost Value = { Position };

    ghost view = { λ c. record { bytes = c.bytes.now; record_at = c.record_at; at = c.at } };

    ghost invariant = { λ c. c.at ≤ length c.bytes.now };
}

impl<'b> Cursor<'b> {
    /// At the front of a file.
    pub(crate) fn new(bytes: &'b [u8]) -> Self
        ensures { result ≡ record { bytes = bytes.now; record_at = 0; at = 0 } }
    {
        Cursor {
            bytes,
            record_at: 0,
            at: 0,
        }
    }

    /// Where the mark stands of the record that is being read.
    pub(crate) fn record_at(&self) -> usize
        ensures { result ≡ self.now.record_at }
    {
        self.record_at
    }

    /// Where the next number stands.
    pub(crate) fn at(&self) -> usize
        ensures { result ≡ self.now.at }
    {
        self.at
    }

    /// Whether all was read.
    pub(crate) fn is_at_end(&self) -> bool
        ensures { IsTrue result ↔ (length self.now.bytes ≤ self.now.at) }
    {
        self.at == self.bytes.len()
    }

    /// The next number.
    #[tactic(auto, unfolding(crate::specs::Parse::number_at))]
    pub(crate) fn number(&mut self) -> Result<u16, FileFault>
        ensures value { result ≡ number_at self.old.bytes self.old.record_at self.old.at }
        ensures moves { OnOk result (self.new ≡ further self.old 2) }
    {
        let bytes = self.take(2)?;
        // Kept: two bytes by index, since `first_chunk` would have to be unwrapped.
        Ok(u16::from_le_bytes([bytes[0], bytes[1]]))
    }

    /// The next number, which is to be from `least` to `most`.
    #[tactic(auto, unfolding(crate::specs::Parse::ranged_at))]
    pub(crate) fn ranged(&mut self, least: u16, most: u16) -> Result<u16, FileFault>
        ensures value { result ≡ ranged_at self.old.bytes self.old.record_at self.old.at least most }
        ensures moves { OnOk result (self.new ≡ further self.old 2) }
        ensures within { IfOk result (λ v. (least ≤ v) × (v ≤ most)) }
    {
        let at = self.at;
        let value = self.number()?;
        if !(least..=most).contains(&value) {
            return Err(FileFault::OutOfRange { at });
        }
        Ok(value)
    }

    /// The next mark, with which a record begins.
    #[tactic(auto, unfolding(crate::specs::Marks::mark_at))]
    pub(crate) fn mark(&mut self) -> Result<Mark, FileFault>
        ensures value { result ≡ mark_at self.old.bytes self.old.at }
        ensures moves { OnOk result (self.new ≡ behind_mark self.old) }
    {
        let at = self.at;
        self.record_at = at;
        Mark::try_from(self.number()?).map_err(|_| FileFault::WrongMark { at })
    }

    /// The next `count` bytes.
    pub(crate) fn take(&mut self, count: usize) -> Result<&'b [u8], FileFault>
        ensures bytes { IfOk result (λ b. b.now ≡ take count (drop self.old.at self.old.bytes)) }
        ensures there { IsOk result ↔ (self.old.at + count ≤ length self.old.bytes) }
        ensures ends { IfErr result (λ e. e ≡ FileFault.Ends self.old.record_at) }
        ensures moves { OnOk result (self.new ≡ further self.old count) }
    {
        let bytes = self.bytes[self.at..]
            .get(..count)
            .ok_or(FileFault::Ends { at: self.record_at })?;
        self.at += count;
        Ok(bytes)
    }
}
