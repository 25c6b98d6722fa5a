// Which kind of PDU the bytes are.
ghost use Rattle.std.specs.Prelude.{◌≡◌};
ghost use Rattle.numbers.specs.Kinds.{kind_number};
ghost use Rattle.judging.specs.Pdu.{kind_of, acceptable as acceptable_of, maximum_of};

use crate::whole::{Whole, has_version};
use numbers::Kind;

// The kind; None where the bytes are no whole valid PDU.
#[tactic(auto, using(crate::proofs::KindLaws::kind_laws))]
pub fn kind_of(pdu: &[u8]) -> Option<Kind>
    ensures { kind_number result ≡ kind_of pdu.now }
{
    let whole = Whole::of(pdu)?;
    let kind = Kind::try_from(pdu[0]).ok()?;
    whole.is_valid(kind).then_some(kind)
}

// Whether the bytes are a valid RQ with version bit 0.
#[tactic(auto, unfolding(crate::specs::Pdu::acceptable))]
pub fn acceptable(pdu: &[u8]) -> bool
    ensures { result ≡ acceptable_of pdu.now }
{
    matches!(kind_of(pdu), Some(Kind::AssociateRq)) && has_version(pdu)
}

// The maximum of a valid RQ or AC; 0 of any other bytes.
#[tactic(auto, using(crate::proofs::KindLaws::asked_laws, laws::proofs::Places::part_tail), unfolding(crate::specs::Pdu::maximum_of))]
pub fn maximum_of(pdu: &[u8]) -> u32
    ensures { result ≡ maximum_of pdu.now }
{
    // an arm each: of the two in one pattern the check doesn't know which the kind is
    match kind_of(pdu) {
        Some(Kind::AssociateRq) => contents::maximum_in(&pdu[74..]),
        Some(Kind::AssociateAc) => contents::maximum_in(&pdu[74..]),
        _ => 0,
    }
}
