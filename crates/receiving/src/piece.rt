// One call on a piece.
ghost use Rattle.std.specs.Prelude.{◌≡◌};
ghost use Rattle.numbers.specs.Refusals.{refusal_in};
ghost use Rattle.association.specs.Calls.{call, receive_refusal, receive_of};
ghost use Rattle.receiving.specs.Private.Reactions.{quiet_of};

use crate::gather::{Got, Head};
use crate::{gather, received};
use association::{Answer, Assoc, Told};
use numbers::Refusal;

#[tactic(auto, using(crate::proofs::Opened::receive_record, crate::proofs::Opened::receive_short, crate::proofs::Opened::receive_open))]
fn receive_refusal(a: Assoc, gather: &[u8], out: &[u8]) -> Result<(), Refusal>
    ensures { refusal_in result ≡ receive_refusal a gather.now out.now }
{
    association::record_refusal(a, gather, numbers::BUFFER)?;
    if out.len() < numbers::TEN {
        return Err(Refusal::ShortOutput);
    }
    Ok(())
}

// No event: so many bytes are gathered now, and so many were used.
#[tactic(auto, unfolding(crate::specs::Private::Reactions::quiet_of))]
fn quiet(a: Assoc, gathered: usize, used: usize) -> Answer
    ensures { result ≡ quiet_of a gathered used }
{
    Answer {
        told: Told {
            refusal: numbers::NOT_REFUSED,
            action: table::NO_ACTION,
            used,
            sent: 0,
            shown: 0,
        },
        assoc: Assoc { gathered, ..a },
    }
}

// One call on a piece: it uses the bytes through the one that brings an event, else the whole piece.
pub fn receive(a: Assoc, gather: &mut [u8], piece: &[u8], out: &mut [u8]) -> Answer
    ensures { call result gather.new out.new ≡ receive_of a gather.old piece.now out.old }
{
    if let Err(refusal) = receive_refusal(a, gather, out) {
        return association::refused(refusal.number(), a);
    }
    if association::dropping(a) {
        return quiet(a, a.gathered, piece.len());
    }
    let Got { used, head } = gather::gather(gather, a.gathered, piece);
    let gathered = a.gathered + used;
    match head {
        Head::Short => quiet(a, gathered, used),
        Head::Long => received::do_long(a, used, out),
        Head::Whole => received::do_pdu(a, &gather[..gathered], used, out),
    }
}
