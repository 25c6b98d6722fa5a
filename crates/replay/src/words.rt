// The words of a line, taken one after another, each by its kind.
use crate::buffers::{BUFFER, SHEET};
use crate::digits::{decimal, decoded};
use std::mem;

// What is left of a line. Each word has a space before it.
#[derive(Drop)]
pub(crate) struct Words<'a> {
    rest: &'a mut [u8],
}

impl<'a> Words<'a> {
    pub(crate) fn new(rest: &'a mut [u8]) -> Words<'a> {
        Words { rest }
    }

    // Any word, as it stands.
    pub(crate) fn word(&mut self) -> Option<&'a mut [u8]> {
        let (space, rest) = mem::take(&mut self.rest).split_first_mut()?;
        if *space != b' ' {
            return None;
        }
        let len = rest.iter().position(|b| *b == b' ').unwrap_or(rest.len());
        let (word, rest) = rest.split_at_mut(len);
        self.rest = rest;
        Some(word)
    }

    // A number of 64 bits.
    pub(crate) fn number(&mut self) -> Option<u64> {
        decimal(self.word()?)
    }

    // A number or a place in a buffer, of 64 bits.
    pub(crate) fn count(&mut self) -> Option<usize> {
        usize::try_from(self.number()?).ok()
    }

    // A number of 32 bits.
    pub(crate) fn long(&mut self) -> Option<u32> {
        u32::try_from(self.number()?).ok()
    }

    // A number of 16 bits.
    pub(crate) fn short(&mut self) -> Option<u16> {
        u16::try_from(self.number()?).ok()
    }

    // A number of 8 bits.
    pub(crate) fn byte(&mut self) -> Option<u8> {
        u8::try_from(self.number()?).ok()
    }

    // 0 or 1.
    pub(crate) fn mark(&mut self) -> Option<bool> {
        match self.number()? {
            0 => Some(false),
            1 => Some(true),
            _ => None,
        }
    }

    // The length of a gather buffer or an output.
    pub(crate) fn length(&mut self) -> Option<usize> {
        self.count().filter(|n| *n <= BUFFER)
    }

    // The length of a sheet.
    pub(crate) fn sheet_length(&mut self) -> Option<usize> {
        self.count().filter(|n| *n <= SHEET)
    }

    // Hex, or `-` for no bytes.
    fn string(&mut self) -> Option<&'a [u8]> {
        let digits = self.word()?;
        if &*digits == b"-".as_slice() {
            return Some(&[]);
        }
        decoded(digits).filter(|bytes| !bytes.is_empty())
    }

    // A byte string that is no sheet.
    pub(crate) fn bytes(&mut self) -> Option<&'a [u8]> {
        self.string().filter(|bytes| bytes.len() <= BUFFER)
    }

    // A sheet, of contexts or of roles.
    pub(crate) fn sheet(&mut self) -> Option<&'a [u8]> {
        self.string().filter(|bytes| bytes.len() <= SHEET)
    }

    // That no word is left.
    pub(crate) fn end(&self) -> Option<()> {
        self.rest.is_empty().then_some(())
    }
}
