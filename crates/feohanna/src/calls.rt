// Receiving and the local events. Each calls by value on the association of the bytes that it is lent, and hands the answer out: `hand_out` is what they share, and a function that took the
// call as a closure would leave each as long. Their rows of parameters are the C interface.
ghost use Rattle.std.specs.Prelude.{◌≡◌};
ghost use Rattle.user_items.specs.Sent.{user_of};
ghost use Rattle.writing.specs.Fields.{rq_of, ac_of, reject_of, items_of};
ghost use Rattle.association.specs.Events.{Local.plain, Local.confirm, Local.accept, Local.reject, Local.send};
ghost use Rattle.association.specs.Calls.{receive_of, local_of};
ghost use Rattle.assoc_bytes.specs.Handed.{handed, hand_out};

use assoc_bytes::{assoc_of, hand_out};
use user_items::User;
use writing_associate::{Accept, Request};

// Bytes were received.
#[unsafe(no_mangle)]
pub extern "C" fn feo_raw_receive(
    assoc: &mut [u8; 16],
    gather: &mut [u8],
    piece: &[u8],
    out: &mut [u8],
    answer: &mut [usize; 4],
) -> u8
    ensures { handed result answer.new assoc.new gather.new out.new
        ≡ hand_out assoc.old (λ a. receive_of a gather.old piece.now out.old) }
{
    let r = receiving::receive(assoc_of(*assoc), gather, piece, out);
    hand_out(r, assoc, answer)
}

// A local event without contents, by its row in Table 9-10.
#[unsafe(no_mangle)]
pub extern "C" fn feo_raw_event(
    assoc: &mut [u8; 16],
    event: u8,
    gather: &[u8],
    out: &mut [u8],
    answer: &mut [usize; 4],
) -> u8
    ensures { handed result answer.new assoc.new gather.now out.new
        ≡ hand_out assoc.old (λ a. local_of a gather.now out.old (plain event)) }
{
    let r = requests::event(assoc_of(*assoc), event, gather, out);
    hand_out(r, assoc, answer)
}

// Transport connection confirmation.
#[unsafe(no_mangle)]
pub extern "C" fn feo_raw_confirm(
    assoc: &mut [u8; 16],
    called: &[u8],
    calling: &[u8],
    application: &[u8],
    class_uid: &[u8],
    version_name: &[u8],
    invoked: u16,
    performed: u16,
    roles: &[u8],
    sheet: &[u8],
    gather: &[u8],
    out: &mut [u8],
    answer: &mut [usize; 4],
) -> u8
    ensures { handed result answer.new assoc.new gather.now out.new
        ≡ hand_out assoc.old (λ a. local_of a gather.now out.old (confirm (rq_of called.now calling.now application.now (user_of class_uid.now version_name.now invoked performed roles.now) sheet.now))) }
{
    let fields = Request {
        called,
        calling,
        application,
        user: User {
            class_uid,
            version_name,
            invoked,
            performed,
            roles,
        },
        sheet,
    };
    let r = requests::confirm(assoc_of(*assoc), fields, gather, out);
    hand_out(r, assoc, answer)
}

// A-ASSOCIATE response, accept.
#[unsafe(no_mangle)]
pub extern "C" fn feo_raw_accept(
    assoc: &mut [u8; 16],
    echoed: &[u8],
    application: &[u8],
    class_uid: &[u8],
    version_name: &[u8],
    invoked: u16,
    performed: u16,
    roles: &[u8],
    sheet: &[u8],
    gather: &[u8],
    out: &mut [u8],
    answer: &mut [usize; 4],
) -> u8
    ensures { handed result answer.new assoc.new gather.now out.new
        ≡ hand_out assoc.old (λ a. local_of a gather.now out.old (accept (ac_of echoed.now application.now (user_of class_uid.now version_name.now invoked performed roles.now) sheet.now))) }
{
    let fields = Accept {
        echoed,
        application,
        user: User {
            class_uid,
            version_name,
            invoked,
            performed,
            roles,
        },
        sheet,
    };
    let r = requests::accept(assoc_of(*assoc), fields, gather, out);
    hand_out(r, assoc, answer)
}

// A-ASSOCIATE response, reject.
#[unsafe(no_mangle)]
pub extern "C" fn feo_raw_reject(
    assoc: &mut [u8; 16],
    res: u8,
    source: u8,
    reason: u8,
    gather: &[u8],
    out: &mut [u8],
    answer: &mut [usize; 4],
) -> u8
    ensures { handed result answer.new assoc.new gather.now out.new
        ≡ hand_out assoc.old (λ a. local_of a gather.now out.old (reject (reject_of res source reason))) }
{
    let r = requests::reject(assoc_of(*assoc), res, source, reason, gather, out);
    hand_out(r, assoc, answer)
}

// P-DATA request.
#[unsafe(no_mangle)]
pub extern "C" fn feo_raw_send(
    assoc: &mut [u8; 16],
    items: &[u8],
    gather: &[u8],
    out: &mut [u8],
    answer: &mut [usize; 4],
) -> u8
    ensures { handed result answer.new assoc.new gather.now out.new
        ≡ hand_out assoc.old (λ a. local_of a gather.now out.old (send (items_of items.now))) }
{
    let r = requests::send(assoc_of(*assoc), items, gather, out);
    hand_out(r, assoc, answer)
}
