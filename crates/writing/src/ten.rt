// The ten-byte PDUs.
ghost use Rattle.std.specs.Prelude.{◌≡◌, [], length, unwrap_or};
ghost use Rattle.numbers.specs.Lengths.{TEN};
ghost use Rattle.octets.specs.Put.{Placed};
ghost use Rattle.writing.specs.Fields.{reject_of, abort_of, abort_good};
ghost use Rattle.writing.specs.Ten.{ten_of};
ghost use Rattle.writing.specs.Form.{Wrote, sent, good_form, reject_form, release_rq_form, release_rp_form, abort_form};

use numbers::{Kind, Refusal, TEN};

// The fixed ones by number: `ten_len` and `write_ten` take any number, so these are no enum.
pub const NO_TEN: u8 = 0;

pub const ABORT_USER: u8 = 1;

pub const ABORT_UNRECOGNIZED: u8 = 2;

pub const ABORT_UNEXPECTED: u8 = 3;

pub const ABORT_INVALID: u8 = 4;

pub const REJECT_VERSION: u8 = 5;

pub const TEN_RELEASE_RQ: u8 = 6;

pub const TEN_RELEASE_RP: u8 = 7;

// The type bytes of those that have ten.
const ASSOCIATE_RJ: u8 = Kind::AssociateRj as u8;

const RELEASE_RQ: u8 = Kind::ReleaseRq as u8;

const RELEASE_RP: u8 = Kind::ReleaseRp as u8;

const ABORT: u8 = Kind::Abort as u8;

#[tactic(auto, using(crate::proofs::TenLaws::no_ten), unfolding(crate::specs::Ten::ten_of, crate::specs::Ten::tens))]
fn ten_of(which: u8) -> Option<[u8; 10]>
    ensures { unwrap_or result [] ≡ ten_of which }
{
    Some(match which {
        ABORT_USER => [ABORT, 0, 0, 0, 0, 4, 0, 0, 0, 0],
        ABORT_UNRECOGNIZED => [ABORT, 0, 0, 0, 0, 4, 0, 0, 2, 1],
        ABORT_UNEXPECTED => [ABORT, 0, 0, 0, 0, 4, 0, 0, 2, 2],
        ABORT_INVALID => [ABORT, 0, 0, 0, 0, 4, 0, 0, 2, 6],
        REJECT_VERSION => [ASSOCIATE_RJ, 0, 0, 0, 0, 4, 0, 1, 2, 2],
        TEN_RELEASE_RQ => [RELEASE_RQ, 0, 0, 0, 0, 4, 0, 0, 0, 0],
        TEN_RELEASE_RP => [RELEASE_RP, 0, 0, 0, 0, 4, 0, 0, 0, 0],
        _ => return None,
    })
}

// How many bytes the PDU of this number has: 10, or 0 for none.
pub fn ten_len(which: u8) -> usize
    ensures { result ≡ length (ten_of which) }
{
    match ten_of(which) {
        Some(pdu) => pdu.len(),
        None => 0,
    }
}

// Writes the PDU of this number to the start of the output and answers how many bytes it has; where it has no room, and for no PDU, nothing is written and 0 answered.
pub fn write_ten(which: u8, out: &mut [u8]) -> usize
    ensures { Placed out.old 0 (ten_of which) result out.new }
{
    match ten_of(which) {
        Some(pdu) => octets::put(out, 0, &pdu),
        None => 0,
    }
}

// Writes a PDU of ten bytes with good contents.
fn send(pdu: [u8; 10], out: &mut [u8]) -> Result<usize, Refusal>
    ensures { Wrote (good_form pdu) out.old (sent result) out.new }
{
    if out.len() < TEN {
        return Err(Refusal::ShortOutput);
    }
    Ok(octets::put(out, 0, &pdu))
}

// Writes an A-ASSOCIATE-RJ to the start of the output.
pub fn write_reject(res: u8, source: u8, reason: u8, out: &mut [u8]) -> Result<usize, Refusal>
    ensures { Wrote (reject_form (reject_of res source reason)) out.old (sent result) out.new }
{
    if !reasons::reject_ok(res, source, reason) {
        return Err(Refusal::BadContents);
    }
    send([ASSOCIATE_RJ, 0, 0, 0, 0, 4, 0, res, source, reason], out)
}

// Whether an ABORT with these values may be sent.
#[tactic(auto, unfolding(crate::specs::Fields::abort_good))]
fn abort_good(source: u8, reason: u8) -> bool
    ensures { result ≡ abort_good (abort_of source reason) }
{
    match source {
        0 => reason == 0,
        _ => reasons::abort_ok(source, reason),
    }
}

// Writes an A-ABORT to the start of the output.
pub fn write_abort(source: u8, reason: u8, out: &mut [u8]) -> Result<usize, Refusal>
    ensures { Wrote (abort_form (abort_of source reason)) out.old (sent result) out.new }
{
    if !abort_good(source, reason) {
        return Err(Refusal::BadContents);
    }
    send([ABORT, 0, 0, 0, 0, 4, 0, 0, source, reason], out)
}

// Writes an A-RELEASE-RQ to the start of the output.
#[tactic(auto, unfolding(crate::specs::Ten::ten_of, crate::specs::Ten::tens))]
pub fn write_release_request(out: &mut [u8]) -> Result<usize, Refusal>
    ensures { Wrote release_rq_form out.old (sent result) out.new }
{
    send([RELEASE_RQ, 0, 0, 0, 0, 4, 0, 0, 0, 0], out)
}

// Writes an A-RELEASE-RP to the start of the output.
#[tactic(auto, unfolding(crate::specs::Ten::ten_of, crate::specs::Ten::tens))]
pub fn write_release_response(out: &mut [u8]) -> Result<usize, Refusal>
    ensures { Wrote release_rp_form out.old (sent result) out.new }
{
    send([RELEASE_RP, 0, 0, 0, 0, 4, 0, 0, 0, 0], out)
}
