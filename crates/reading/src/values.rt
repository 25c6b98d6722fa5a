// Reading an RJ and an ABORT.
ghost use Rattle.std.specs.Prelude.{◌≡◌};
ghost use Rattle.reading.specs.Values.{reject_in, reject_as, abort_in, abort_as};

use crate::asked::of_kind;
use numbers::{Kind, Refusal};

#[derive(Clone, Copy, Debug, Default, PartialEq, Eq)]
pub struct Reject {
    pub result: u8,
    pub source: u8,
    pub reason: u8,
}

#[derive(Clone, Copy, Debug, Default, PartialEq, Eq)]
pub struct Abort {
    pub source: u8,
    pub reason: u8,
}

// Refused by NoSuchPdu alone.
#[tactic(auto, using(crate::proofs::ValueLaws::value_laws))]
pub fn read_reject(pdu: &[u8]) -> Result<Reject, Refusal>
    ensures { reject_as result ≡ reject_in pdu.now }
{
    of_kind(Kind::AssociateRj, pdu)?;
    Ok(Reject {
        result: pdu[7],
        source: pdu[8],
        reason: pdu[9],
    })
}

// Refused by NoSuchPdu alone.
#[tactic(auto, using(crate::proofs::ValueLaws::value_laws))]
pub fn read_abort(pdu: &[u8]) -> Result<Abort, Refusal>
    ensures { abort_as result ≡ abort_in pdu.now }
{
    of_kind(Kind::Abort, pdu)?;
    Ok(Abort {
        source: pdu[8], // behind two reserved bytes
        reason: pdu[9], // it says something where the source is 2
    })
}
