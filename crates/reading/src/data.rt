// Reading a PDV by its number, or by its place.
ghost use Rattle.std.specs.Prelude.{◌≡◌, take};
ghost use Rattle.octets.specs.Slice.{PartOf};
ghost use Rattle.pdvs.specs.Data.{pdvs, size};
ghost use Rattle.reading.specs.Data.{data_as, data_of, data_at, fragment_of};

use crate::asked::of_kind;
use numbers::{Kind, Refusal};

// A PDV: its fragment starts at start, counted from the PDU's first byte, and has len bytes.
#[derive(Clone, Copy, Debug, Default, PartialEq, Eq)]
pub struct Pdv {
    pub id: u8,
    pub control: u8,
    pub start: usize,
    pub len: usize,
}

// How many bytes of a P-DATA-TF's body the PDV items before a number take; all of them where there are no more than that.
#[tactic(auto, using(crate::proofs::DataLaws::reach_laws))]
fn pdv_place(number: usize, s: &[u8]) -> usize
    ensures { result ≡ size (take number (pdvs s.now)) }
{
    let mut at = 0;
    for _ in 0..number {
        let Some(end) = pdvs::pdv_end(s, at) else {
            return at;
        };
        at = end;
    }
    at
}

// PDV `number`, from 0. Refused by NoSuchPdu, and by BadContents where there is none of that number.
#[tactic(auto, using(crate::proofs::DataLaws::data_laws))]
pub fn read_data(pdu: &[u8], number: usize) -> Result<Pdv, Refusal>
    ensures { data_as result ≡ data_of pdu.now number }
{
    of_kind(Kind::DataTf, pdu)?;
    let s = &pdu[numbers::HEADER..];
    let at = pdv_place(number, s);
    let end = pdvs::pdv_end(s, at).ok_or(Refusal::BadContents)?;
    Ok(Pdv {
        id: s[at + 4],
        control: s[at + 5],
        start: numbers::HEADER + at + 6,
        len: end - (at + 6),
    })
}

// The fragment's own part of the PDU; empty where read_data refuses.
pub fn fragment(pdu: &[u8], number: usize) -> &[u8]
    ensures { PartOf pdu.entry (data_of pdu.now number).start (fragment_of pdu.now number) result }
{
    match read_data(pdu, number) {
        Ok(pdv) => {
            let end = pdv.start + pdv.len;
            &pdu[pdv.start..end]
        }
        Err(_) => &pdu[..0],
    }
}

// The PDV item that stands at a place of the PDU, by itself: the header and the other items are not looked at. The next one's place is start + len.
// Refused by BadContents alone.
#[tactic(auto, using(crate::proofs::PlaceLaws::place_laws))]
pub fn pdv_at(pdu: &[u8], at: usize) -> Result<Pdv, Refusal>
    ensures { data_as result ≡ data_at pdu.now at }
{
    if at < numbers::HEADER {
        return Err(Refusal::BadContents);
    }
    let end = pdvs::pdv_end(pdu, at).ok_or(Refusal::BadContents)?;
    let id = pdu[at + 4];
    if id % 2 != 1 {
        return Err(Refusal::BadContents);
    }
    Ok(Pdv {
        id,
        control: pdu[at + 5],
        start: at + 6,
        len: end - (at + 6),
    })
}
