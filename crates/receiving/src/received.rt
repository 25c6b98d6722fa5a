// The event that bytes bring, and what its action does.
// That the output has ten bytes stands in three clauses: a type that said so would hold its borrow, and `receive` would take it apart again.
ghost use Rattle.std.specs.Prelude.{◌≡◌, ◌≤◌, length};
ghost use Rattle.numbers.specs.Lengths.{TEN};
ghost use Rattle.framing.specs.Framing.{Brought.pdu as whole};
ghost use Rattle.writing.specs.Ten.{ten_of};
ghost use Rattle.association.specs.Record.{standing};
ghost use Rattle.association.specs.Performing.{brings, ten_by};
ghost use Rattle.association.specs.Machine.{doing, upper};
ghost use Rattle.receiving.specs.Private.Reactions.{Done};

use association::{Answer, Assoc, Brings, Told};
use numbers::Kind;

// An action, with what its event brings, and the A-ABORT that AA-7 and AA-8 send.
struct Doing {
    action: u8,
    brings: Brings,
    abort: u8,
}

// What a whole PDU brings to an association's action.
#[tactic(auto, unfolding(association::specs::Performing::accepts_at, association::specs::Performing::peer_at))]
fn brings_pdu(action: u8, a: Assoc, pdu: &[u8]) -> Brings
    ensures { result ≡ brings action (standing a) (whole pdu.now) }
{
    let accepts = action == table::AE_6 && judging::acceptable(pdu);
    let peer_max = if action == table::AE_3 || accepts {
        judging::maximum_of(pdu)
    } else {
        a.peer_max
    };
    Brings {
        accepts,
        peer_max,
        deaf: a.deaf,
    }
}

// Does an action and tells it: so many bytes were used, with a PDU of `len` bytes.
fn done(a: Assoc, x: Doing, used: usize, len: usize, out: &mut [u8]) -> Answer
    requires { TEN ≤ length out.old }
    ensures { Done (doing x.action (standing a) x.brings (ten_of (ten_by x.action x.brings.accepts x.abort))) out.old used len result out.new }
{
    let Doing {
        action,
        brings,
        abort,
    } = x;
    let ten = association::ten_by(action, brings.accepts, abort);
    let sent = writing::write_ten(ten, out);
    let shown = if table::shows(action, brings.accepts) {
        len
    } else {
        0
    };
    let assoc = association::after(action, a, brings, 0);
    Answer {
        told: Told {
            refusal: numbers::NOT_REFUSED,
            action,
            used,
            sent,
            shown,
        },
        assoc,
    }
}

// A length above the limit, at the last of the bytes used.
pub(crate) fn do_long(a: Assoc, used: usize, out: &mut [u8]) -> Answer
    requires { TEN ≤ length out.old }
    ensures { Done (upper.on_long (standing a)) out.old used 0 result out.new }
{
    let x = Doing {
        action: table::cell(table::INVALID_RECEIVED, a.state),
        brings: Brings {
            accepts: false,
            peer_max: a.peer_max,
            deaf: true,
        },
        abort: writing::ABORT_INVALID,
    };
    done(a, x, used, 0, out)
}

// A whole PDU, at the last of the bytes used.
pub(crate) fn do_pdu(a: Assoc, pdu: &[u8], used: usize, out: &mut [u8]) -> Answer
    requires { TEN ≤ length out.old }
    ensures { Done (upper.on_pdu (standing a) pdu.now) out.old used (length pdu.now) result out.new }
{
    let event = association::event_of_kind(Kind::number(judging::kind_of(pdu)));
    let action = table::cell(event, a.state);
    let x = Doing {
        action,
        brings: brings_pdu(action, a, pdu),
        abort: association::abort_for(event, octets::byte_at(pdu, 0)),
    };
    done(a, x, used, pdu.len(), out)
}
