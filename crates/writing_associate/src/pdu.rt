// What an A-ASSOCIATE-RQ and an A-ASSOCIATE-AC have in common: the fixed part, one 10H, the contexts, one 50H.
ghost use Rattle.std.specs.Prelude.{◌≡◌, ◌+◌, ◌≤◌, length};
ghost use Rattle.numbers.specs.Lengths.{LONGEST};
ghost use Rattle.octets.specs.Private.Put.{Put};
ghost use Rattle.writing.specs.Wire.{associate_bytes};
ghost use Rattle.writing.specs.Form.{Wrote, sent, good_form};
ghost use Rattle.writing_associate.specs.Private.ContextItems.{answers, capped};
ghost use Rattle.writing_associate.specs.Private.Pdu.{associate_said, pdu_kind, pdu_of, contexts_of, base as base_of, item_part, fixed_part, Fit, Known, Measured};

use crate::contexts::{Side, measure, put_contexts};
use crate::item::put_item;
use crate::user::{put_user, user_size};
use numbers::{Kind, Refusal};
use user_items::User;

// An RQ or an AC to be written, with the 64 bytes behind its version.
#[derive(Clone, Copy)]
pub(crate) struct Associate<'a> {
    pub(crate) side: Side,
    pub(crate) middle: &'a [u8],
    pub(crate) application: &'a [u8],
    pub(crate) user: User<'a>,
    pub(crate) sheet: &'a [u8],
}

// The PDU-length, where `user` is the length of the 50H's body. Any above the limit gives 16,385.
fn pdu_size(f: Associate<'_>, user: usize) -> usize
    requires { (Fit (associate_said f)) × (user ≤ LONGEST + 1) }
    ensures { result ≡ capped (base_of (associate_said f.entry) user + length (contexts_of (associate_said f.entry))) }
{
    let base = 68 + (4 + f.application.len()) + (4 + user);
    if numbers::LONGEST < base {
        return numbers::LONGEST + 1;
    }
    measure(f.side, f.sheet.as_chunks().0, base)
}

fn put_fixed(out: &mut [u8], kind: u8, n: usize, middle: &[u8]) -> usize
    requires { (74 ≤ length out.old) × (n ≤ LONGEST) × (length middle.now ≡ 64) }
    ensures { Put out.old 0 (fixed_part kind n middle.now) result out.new }
{
    let l = octets::four_of(n as u32);
    let head = [kind, 0, l[0], l[1], l[2], l[3], 0, 1, 0, 0];
    let a = octets::put(out, 0, &head);
    octets::put(out, a, middle)
}

// The items, where `user` is the length of the 50H's body.
fn put_items(out: &mut [u8], at: usize, user: usize, f: Associate<'_>) -> usize
    requires { Known (associate_said f) user at (length out.old) }
    ensures { Put out.old at (item_part (associate_said f.entry)) result out.new }
{
    let a = put_item(out, at, 0x10, f.application);
    let b = put_contexts(out, a, f.side, f.sheet.as_chunks().0);
    put_user(out, b, user, f.user)
}

fn pdu_kind(side: Side) -> u8
    ensures { result ≡ pdu_kind (answers side) }
{
    let kind = match side {
        Side::Request => Kind::AssociateRq,
        Side::Accept => Kind::AssociateAc,
    };
    kind.type_byte()
}

// A PDU of n bytes behind its header.
fn put_pdu(out: &mut [u8], n: usize, user: usize, f: Associate<'_>) -> usize
    requires { Measured (associate_said f) n user (length out.old) }
    ensures { Put out.old 0 (associate_bytes (pdu_of (associate_said f.entry))) result out.new }
{
    let a = put_fixed(out, pdu_kind(f.side), n, f.middle);
    put_items(out, a, user, f)
}

// Writes an RQ or an AC whose contents are good: measured first, then written.
pub(crate) fn write_pdu(f: Associate<'_>, out: &mut [u8]) -> Result<usize, Refusal>
    requires { Fit (associate_said f) }
    ensures { Wrote (good_form (associate_bytes (pdu_of (associate_said f.entry)))) out.old (sent result) out.new }
{
    let user = user_size(f.user);
    let n = pdu_size(f, user);
    if numbers::LONGEST < n {
        return Err(Refusal::LongPdu);
    }
    if out.len() < n + numbers::HEADER {
        return Err(Refusal::ShortOutput);
    }
    Ok(put_pdu(out, n, user, f))
}
