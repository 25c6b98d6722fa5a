// The calls that read, judge or choose.
use crate::buffers::{Buffer, IN_SHEET, SHEET};
use crate::print::{Hex, Told, print, yes_or_no};
use crate::words::Words;
use numbers::{Kind, Refusal};
use reading::{Associate, Pdv};

// K PDU
pub(crate) fn kind(rt: &impl Print, mut words: Words) -> Option<()> {
    let pdu = words.bytes()?;
    words.end()?;
    let kind = Kind::number(judging::kind_of(pdu));
    let acceptable = u8::from(judging::acceptable(pdu));
    let maximum = judging::maximum_of(pdu);
    let _ = println!(rt; "{kind} {acceptable} {maximum}");
    Some(())
}

fn fields_of(f: Associate) -> [u64; 12] {
    let class = f.class.unwrap_or_default();
    let version_name = f.version_name.unwrap_or_default();
    [
        u64::from(f.version),
        f.application.at as u64,
        f.application.len as u64,
        u64::from(f.maximum),
        f.records as u64,
        class.at as u64,
        class.len as u64,
        version_name.at as u64,
        version_name.len as u64,
        u64::from(f.invoked),
        u64::from(f.performed),
        f.roles as u64,
    ]
}

// PDU SHEETLEN ROLESLEN: lends both sheets to what reads, and prints the answer.
fn associate<F>(rt: &impl Print, mut words: Words, read: F) -> Option<()>
where
    F: FnOnce(&[u8], &mut [u8], &mut [u8]) -> Result<Associate, Refusal>,
    requires { F.IsAlwaysCallable read }
{
    let pdu = words.bytes()?;
    let mut sheet: Buffer<SHEET> = Buffer::new(IN_SHEET, words.sheet_length()?);
    let mut roles: Buffer<SHEET> = Buffer::new(IN_SHEET, words.sheet_length()?);
    words.end()?;
    let fields = read(pdu, sheet.lend(), roles.lend()).map(fields_of);
    let _ = println!(rt; "{} {} {}", Told(fields), sheet.digest(), roles.digest());
    Some(())
}

// Q PDU SHEETLEN ROLESLEN
pub(crate) fn request(rt: &impl Print, words: Words) -> Option<()> {
    associate(rt, words, |pdu, sheet, roles| {
        reading::read_request(pdu, sheet, roles)
    })
}

// A PDU SHEETLEN ROLESLEN
pub(crate) fn accept(rt: &impl Print, words: Words) -> Option<()> {
    associate(rt, words, |pdu, sheet, roles| {
        reading::read_accept(pdu, sheet, roles)
    })
}

// J PDU
pub(crate) fn reject(rt: &impl Print, mut words: Words) -> Option<()> {
    let pdu = words.bytes()?;
    words.end()?;
    let read = reading::read_reject(pdu);
    let fields = read.map(|f| [
        u64::from(f.result),
        u64::from(f.source),
        u64::from(f.reason),
    ]);
    print(rt, Told(fields));
    Some(())
}

// B PDU
pub(crate) fn abort(rt: &impl Print, mut words: Words) -> Option<()> {
    let pdu = words.bytes()?;
    words.end()?;
    let read = reading::read_abort(pdu);
    let fields = read.map(|f| [u64::from(f.source), u64::from(f.reason)]);
    print(rt, Told(fields));
    Some(())
}

fn fields_of_pdv(pdv: Pdv) -> [u64; 4] {
    let Pdv {
        id,
        control,
        start,
        len,
    } = pdv;
    [u64::from(id), u64::from(control), start as u64, len as u64]
}

// D PDU NUMBER
pub(crate) fn data(rt: &impl Print, mut words: Words) -> Option<()> {
    let pdu = words.bytes()?;
    let number = words.count()?;
    words.end()?;
    let fields = reading::read_data(pdu, number).map(fields_of_pdv);
    let fragment = reading::fragment(pdu, number);
    let _ = println!(rt; "{} {}", Told(fields), Hex(fragment));
    Some(())
}

// P PDU PLACE
pub(crate) fn pdv_at(rt: &impl Print, mut words: Words) -> Option<()> {
    let pdu = words.bytes()?;
    let at = words.count()?;
    words.end()?;
    let fields = reading::pdv_at(pdu, at).map(fields_of_pdv);
    print(rt, Told(fields));
    Some(())
}

// T OWN SOUGHT
pub(crate) fn title_place(rt: &impl Print, mut words: Words) -> Option<()> {
    let own = words.bytes()?;
    let sought = words.bytes()?;
    words.end()?;
    let found = titles::title_place(own, sought).map(|place| match place {
        Some(place) => [1, place as u64],
        None => [0, 0],
    });
    print(rt, Told(found));
    Some(())
}

// C PROPOSAL SITE SHEETLEN
pub(crate) fn choose(rt: &impl Print, mut words: Words) -> Option<()> {
    let proposal = words.sheet()?;
    let site = words.sheet()?;
    let mut sheet: Buffer<SHEET> = Buffer::new(IN_SHEET, words.sheet_length()?);
    words.end()?;
    let chosen = choosing::choose(proposal, site, sheet.lend());
    let records = chosen.map(|records| [records as u64]);
    let _ = println!(rt; "{} {}", Told(records), sheet.digest());
    Some(())
}

// N NAME
pub(crate) fn name(rt: &impl Print, mut words: Words) -> Option<()> {
    let name = words.bytes()?;
    words.end()?;
    yes_or_no(rt, names::name_ok(name));
    Some(())
}

// V TITLE
pub(crate) fn title(rt: &impl Print, mut words: Words) -> Option<()> {
    let title = words.bytes()?;
    words.end()?;
    yes_or_no(rt, titles::title_ok(title));
    Some(())
}

// E TITLE TITLE
pub(crate) fn titles(rt: &impl Print, mut words: Words) -> Option<()> {
    let first = words.bytes()?;
    let second = words.bytes()?;
    words.end()?;
    yes_or_no(rt, titles::titles_equal(first, second));
    Some(())
}
