// A P-DATA-TF of PDV items.
ghost use Rattle.std.specs.Prelude.{◌≡◌, ◌∷◌, ◌≤◌};
ghost use Rattle.numbers.specs.Kinds.{type_byte};
ghost use Rattle.numbers.specs.Lengths.{LONGEST};
ghost use Rattle.octets.specs.Octets.{four};
ghost use Rattle.writing.specs.Fields.{items_of};
ghost use Rattle.writing.specs.Form.{Wrote, sent, most_of, data_form};

use numbers::{Kind, Refusal};

// A PDU's first six bytes, with its PDU-length.
fn header(kind: Kind, n: u32) -> [u8; 6]
    ensures { result ≡ type_byte kind ∷ 0 ∷ four n }
{
    let l = n.to_be_bytes();
    [kind as u8, 0, l[0], l[1], l[2], l[3]]
}

// The greatest PDU-length that may be sent to a peer with this maximum.
#[tactic(auto, unfolding(crate::specs::Form::most_of))]
fn most_of(peer: u32) -> usize
    ensures { (result ≡ most_of peer) × (result ≤ LONGEST) }
{
    match peer as usize {
        0 => numbers::LONGEST,
        most => most.min(numbers::LONGEST),
    }
}

// Writes a P-DATA-TF of PDV items in wire form to the start of the output, and says how many bytes it has; a peer maximum of 0 is no limit.
pub fn write_data(items: &[u8], peer: u32, out: &mut [u8]) -> Result<usize, Refusal>
    ensures { Wrote (data_form peer (items_of items.now)) out.old (sent result) out.new }
{
    if !pdvs::pdvs_ok(3, items) {
        return Err(Refusal::BadContents);
    }
    let n = items.len();
    if most_of(peer) < n {
        return Err(Refusal::LongPdu);
    }
    if out.len() < n + numbers::HEADER {
        return Err(Refusal::ShortOutput);
    }
    let at = octets::put(out, 0, &header(Kind::DataTf, n as u32));
    Ok(octets::put(out, at, items))
}
