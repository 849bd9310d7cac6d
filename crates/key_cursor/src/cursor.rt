ghost use Rattle.std.specs.Prelude.{◌≡◌, IfErr, IsTrue, ◌↔◌, []};
ghost use Rattle.key_rules.specs.Readers.{read_byte as byte_reader, read_literal as literal_reader, read_number as number_reader};
ghost use Rattle.key_cursor.specs.Reads.{IsOfBytes, Reads, count_reader, itself, left};

use crate::end::ReadEnd;

/// The bytes of a key that are still to be read.
#[derive(Clone, Copy)]
pub struct KeyCursor<'a> {
    rest: &'a [u8],
}

impl<'a> KeyCursor<'a> {
    /// At the first of these bytes.
    pub fn new(bytes: &'a [u8]) -> KeyCursor<'a>
        ensures { left result ≡ bytes.now }
    {
        KeyCursor { rest: bytes }
    }

    /// Whether all bytes were read.
    pub fn is_at_end(&self) -> bool
        ensures { IsTrue result ↔ (left self.now ≡ []) }
    {
        self.rest.is_empty()
    }

    /// Reads a byte.
    pub fn read_byte(&mut self) -> Result<u8, ReadEnd>
        ensures reads { Reads itself byte_reader (left self.old) (left self.new) result }
        ensures of_bytes { IfErr result IsOfBytes }
    {
        match self.rest {
            [byte, rest @ ..] => {
                self.rest = rest;
                Ok(*byte)
            }
            [] => Err(ReadEnd::NotKey),
        }
    }

    /// Reads a number.
    pub fn read_number(&mut self) -> Result<u32, ReadEnd>
        ensures reads { Reads itself number_reader (left self.old) (left self.new) result }
        ensures of_bytes { IfErr result IsOfBytes }
    {
        match self.rest.split_first_chunk::<4>() {
            Some((bytes, rest)) => {
                self.rest = rest;
                Ok(u32::from_be_bytes(*bytes))
            }
            None => Err(ReadEnd::NotKey),
        }
    }

    /// Reads a literal.
    pub fn read_literal(&mut self) -> Result<i128, ReadEnd>
        ensures reads { Reads itself literal_reader (left self.old) (left self.new) result }
        ensures of_bytes { IfErr result IsOfBytes }
    {
        match self.rest.split_first_chunk::<16>() {
            Some((bytes, rest)) => {
                self.rest = rest;
                Ok(u128::from_be_bytes(*bytes).cast_signed())
            }
            None => Err(ReadEnd::NotKey),
        }
    }

    /// Reads how many members a list has, which are no more than bytes are left.
    pub fn read_count(&mut self) -> Result<u32, ReadEnd>
        ensures reads { Reads itself count_reader (left self.old) (left self.new) result }
        ensures of_bytes { IfErr result IsOfBytes }
    {
        let count = self.read_number()?;
        if count as usize <= self.rest.len() {
            Ok(count)
        } else {
            Err(ReadEnd::NotKey)
        }
    }
}
