// The local events: what a host gives an association beside received bytes.
#![tactic(auto)]

ghost use Rattle.std.specs.Prelude.{◌≡◌};
ghost use Rattle.writing.specs.Fields.{reject_of, items_of};
ghost use Rattle.writing.specs.Form.{Wrote, sent};
ghost use Rattle.writing_associate.specs.Said.{rq_said, ac_said};
ghost use Rattle.association.specs.Events.{carries as carriesOf, Local.plain, Local.confirm, Local.accept, Local.reject, Local.send};
ghost use Rattle.association.specs.Machine.{local_cell, plain_form};
ghost use Rattle.association.specs.Calls.{call, local_of};
ghost use Rattle.requests.specs.Private.Gates.{Admitted, finish_of};

use association::{Answer, Assoc, Brings, Told};
use numbers::Refusal;
use writing_associate::{Accept, Request};

// The action of a local event by its number, or what refuses it before its contents are looked at.
#[tactic(auto, using(crate::proofs::RequestLaws::gate_record, crate::proofs::RequestLaws::gate_blank, crate::proofs::RequestLaws::gate_open))]
fn admit(a: Assoc, number: u8, gather: &[u8]) -> Result<u8, Refusal>
    ensures { Admitted a gather.now (local_cell number a.state) result }
{
    association::record_refusal(a, gather, a.gathered)?;
    match association::local_cell(number, a.state) {
        table::NO_ACTION => Err(Refusal::BlankCell),
        action => Ok(action),
    }
}

// Refused by the writer of its PDU, or the action is done.
#[tactic(auto, unfolding(crate::specs::Private::Gates::done_locally))]
fn finish(a: Assoc, action: u8, wrote: Result<usize, Refusal>) -> Answer
    ensures { result ≡ finish_of a action wrote }
{
    let sent = match wrote {
        Ok(sent) => sent,
        Err(refusal) => return association::refused(refusal.number(), a),
    };
    let brings = Brings {
        accepts: false,
        peer_max: a.peer_max,
        deaf: a.deaf,
    };
    Answer {
        told: Told {
            refusal: numbers::NOT_REFUSED,
            action,
            used: 0,
            sent,
            shown: 0,
        },
        assoc: association::after(action, a, brings, a.gathered),
    }
}

// Whether an event has contents, which a bare number cannot carry.
#[tactic(auto, unfolding(association::specs::Events::carries, laws::specs::Lists::among))]
fn carries(number: u8) -> bool
    ensures { result ≡ carriesOf number }
{
    matches!(
        number,
        table::TRANSPORT_CONFIRM
            | table::ACCEPT_RESPONSE
            | table::REJECT_RESPONSE
            | table::DATA_REQUEST
    )
}

// Writes what the action of an event without contents sends by itself.
fn write_plain(number: u8, action: u8, out: &mut [u8]) -> Result<usize, Refusal>
    ensures { Wrote (plain_form number action) out.old (sent result) out.new }
{
    if carries(number) {
        return Err(Refusal::BadContents);
    }
    let ten = association::ten_by(action, false, writing::NO_TEN);
    if out.len() < writing::ten_len(ten) {
        return Err(Refusal::ShortOutput);
    }
    Ok(writing::write_ten(ten, out))
}

// Each local event below goes the same way. It isn't one function that takes the writer as a closure: tried, and of a closure that holds a struct of slices, as `fields`, the check
// knows nothing that it wrote, so the proof didn't close.

// A local event by its number, 1 to 19 in the row order of Table 9-10: one of the seven without contents.
pub fn event(a: Assoc, number: u8, gather: &[u8], out: &mut [u8]) -> Answer
    ensures { call result gather.now out.new ≡ local_of a gather.now out.old (plain number) }
{
    match admit(a, number, gather) {
        Ok(action) => finish(a, action, write_plain(number, action, out)),
        Err(refusal) => association::refused(refusal.number(), a),
    }
}

// The transport confirmation, with the fields of the RQ to be sent.
pub fn confirm(a: Assoc, fields: Request<'_>, gather: &[u8], out: &mut [u8]) -> Answer
    ensures { call result gather.now out.new ≡ local_of a gather.now out.old (confirm (rq_said fields.entry)) }
{
    match admit(a, table::TRANSPORT_CONFIRM, gather) {
        Ok(action) => finish(a, action, writing_associate::write_request(fields, out)),
        Err(refusal) => association::refused(refusal.number(), a),
    }
}

// The accept response, with the fields of the AC to be sent.
pub fn accept(a: Assoc, fields: Accept<'_>, gather: &[u8], out: &mut [u8]) -> Answer
    ensures { call result gather.now out.new ≡ local_of a gather.now out.old (accept (ac_said fields.entry)) }
{
    match admit(a, table::ACCEPT_RESPONSE, gather) {
        Ok(action) => finish(a, action, writing_associate::write_accept(fields, out)),
        Err(refusal) => association::refused(refusal.number(), a),
    }
}

// The reject response.
pub fn reject(a: Assoc, res: u8, source: u8, reason: u8, gather: &[u8], out: &mut [u8]) -> Answer
    ensures { call result gather.now out.new ≡ local_of a gather.now out.old (reject (reject_of res source reason)) }
{
    match admit(a, table::REJECT_RESPONSE, gather) {
        Ok(action) => finish(a, action, writing::write_reject(res, source, reason, out)),
        Err(refusal) => association::refused(refusal.number(), a),
    }
}

// A P-DATA request: its PDV items in wire form.
pub fn send(a: Assoc, items: &[u8], gather: &[u8], out: &mut [u8]) -> Answer
    ensures { call result gather.now out.new ≡ local_of a gather.now out.old (send (items_of items.now)) }
{
    match admit(a, table::DATA_REQUEST, gather) {
        Ok(action) => finish(a, action, writing::write_data(items, a.peer_max, out)),
        Err(refusal) => association::refused(refusal.number(), a),
    }
}
