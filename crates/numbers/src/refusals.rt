// Why a call is refused.
ghost use Rattle.std.specs.Prelude.{◌≡◌};
ghost use Rattle.numbers.specs.Refusals.{refusal_number};

use std::error::Error;
use std::fmt;

// What a call says that is not refused, where another says its refusal's number.
pub const NOT_REFUSED: u8 = 0;

// The refusals, each by its number in the documents.
#[derive(Clone, Copy, Debug, PartialEq, Eq)]
pub enum Refusal {
    BlankCell = 1,
    ShortOutput = 2,
    ShortGather = 3,
    BadContents = 4,
    LongPdu = 5,
    BrokenRecord = 6,
    NoSuchPdu = 7,
}

impl Refusal {
    pub fn number(self) -> u8
        ensures { result ≡ refusal_number self }
    {
        self as u8
    }
}

impl fmt::Display for Refusal {
    ghost use Rattle.std.specs.Prelude.{Some};
    ghost use Rattle.numbers.specs.Refusals.{refusal_words};

    ghost output = { λ refusal. Some (refusal_words refusal) };

    fn fmt<W: fmt::Write>(&self, f: &mut fmt::Formatter<W>) -> fmt::Result {
        f.write_str(match self {
            Refusal::BlankCell => "no local event in this state",
            Refusal::ShortOutput => "the output or sheet is too short",
            Refusal::ShortGather => "the gather buffer is too short",
            Refusal::BadContents => "the contents may not be sent, or the number is past the last",
            Refusal::LongPdu => "the PDU is too long",
            Refusal::BrokenRecord => "the association's record is broken",
            Refusal::NoSuchPdu => "no PDU of the kind asked for",
        })
    }
}

impl Error for Refusal {}
