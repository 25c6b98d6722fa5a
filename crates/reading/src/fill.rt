// The records of the contexts of an RQ or an AC, put into a lent sheet in PDU order: k is the type of a context, 20H or 21H.
// Each loop here and in role_sheet.rt is a `for` over the items of one type that puts another record: one loop that took the record as a closure, with its contract, would be longer than they are.
ghost use Rattle.std.specs.Prelude.{◌≡◌, ◌+◌, ◌*◌, ◌≤◌, length, drop};
ghost use Rattle.numbers.specs.Lengths.{RECORD};
ghost use Rattle.octets.specs.Private.Put.{Put};
ghost use Rattle.items.specs.Items.{walk, bodies};
ghost use Rattle.sheets.specs.Record.{record_of};
ghost use Rattle.reading.specs.Associate.{transfer_in};
ghost use Rattle.reading.specs.Private.Records.{each, body_records, all_records};

use items::Items;

// What follows the four bytes of a context.
fn behind_four(b: &[u8]) -> &[u8]
    ensures { result.now ≡ drop 4 b.now }
{
    b.get(4..).unwrap_or(&[])
}

// How many records a context gives: one per transfer syntax in an RQ, one in an AC.
#[tactic(auto, using(crate::proofs::FillLaws::rows_in_laws))]
fn rows_in(k: u8, b: &[u8]) -> usize
    ensures { RECORD * result ≡ length (body_records k b.now) }
{
    if k == 0x20 {
        items::count_of(0x40, behind_four(b))
    } else {
        1
    }
}

#[tactic(auto, using(crate::proofs::FillLaws::rows_laws))]
pub(crate) fn rows(k: u8, s: &[u8]) -> usize
    ensures { RECORD * result ≡ length (all_records k s.now) }
{
    let mut n = 0;
    for item in Items::of(s) {
        let Ok(item) = item else {
            return n;
        };
        if item.kind == k {
            n += rows_in(k, item.body);
        }
    }
    n
}

#[tactic(auto, using(crate::proofs::FillLaws::record_laws))]
fn put_record(sheet: &mut [u8], n: usize, id: u8, res: u8, a: &[u8], x: &[u8]) -> usize
    requires { n + RECORD ≤ length sheet.old }
    ensures { Put sheet.old n (record_of id res a.now x.now) result sheet.new }
{
    let r = sheets::record_of(id, res, a, x);
    octets::put(sheet, n, &r)
}

// One record for each transfer syntax.
#[tactic(auto, using(crate::proofs::FillLaws::fill_laws))]
fn put_transfers(sheet: &mut [u8], from: usize, id: u8, a: &[u8], s: &[u8]) -> usize
    requires { from + length (each (record_of id 0 a.now) (bodies 0x40 (walk s.now))) ≤ length sheet.old }
    ensures { Put sheet.old from (each (record_of id 0 a.now) (bodies 0x40 (walk s.now))) result sheet.new }
{
    let mut n = from;
    for item in Items::of(s) {
        let Ok(item) = item else {
            return n;
        };
        if item.kind == 0x40 {
            n = put_record(sheet, n, id, 0, a, item.body);
        }
    }
    n
}

// The transfer name of an answer: none where the context was refused.
#[tactic(auto, using(crate::proofs::FillLaws::transfer_laws))]
fn transfer_in(b: &[u8]) -> &[u8]
    ensures { result.now ≡ transfer_in b.now }
{
    if octets::byte_at(b, 2) != numbers::ACCEPTED {
        return &[];
    }
    items::first_of(0x40, behind_four(b))
}

#[tactic(auto, using(crate::proofs::FillLaws::context_laws))]
fn put_context(k: u8, sheet: &mut [u8], n: usize, b: &[u8]) -> usize
    requires { n + length (body_records k b.now) ≤ length sheet.old }
    ensures { Put sheet.old n (body_records k b.now) result sheet.new }
{
    let id = octets::byte_at(b, 0);
    if k == 0x20 {
        let s = behind_four(b);
        return put_transfers(sheet, n, id, items::first_of(0x30, s), s);
    }
    put_record(sheet, n, id, octets::byte_at(b, 2), &[], transfer_in(b))
}

#[tactic(auto, using(crate::proofs::FillLaws::fill_laws))]
pub(crate) fn put_contexts(k: u8, sheet: &mut [u8], s: &[u8]) -> usize
    requires { length (all_records k s.now) ≤ length sheet.old }
    ensures { Put sheet.old 0 (all_records k s.now) result sheet.new }
{
    let mut n = 0;
    for item in Items::of(s) {
        let Ok(item) = item else {
            return n;
        };
        if item.kind == k {
            n = put_context(k, sheet, n, item.body);
        }
    }
    n
}
