// One record of the sheet: made, and looked at.
ghost use Rattle.std.specs.Prelude.{◌≡◌, ◌+◌, ◌≤◌, ◌<◌, length, take};
ghost use Rattle.octets.specs.Slice.{PartOf};
ghost use Rattle.sheets.specs.Sheet.{record_bytes, cap};
ghost use Rattle.sheets.specs.Record.{record_of, name_at, abstract_at, transfer_at, name_start, goes_on_at, same_run};

use numbers::RECORD;

// Where a record has a name: the byte with its length, and the start of its field.
#[derive(Clone, Copy)]
struct Field {
    length: usize,
    starts: usize,
}

const ABSTRACT: Field = Field {
    length: 2,
    starts: 4,
};

const TRANSFER: Field = Field {
    length: 3,
    starts: 68,
};

// As much of a name as its field holds, its own part of the name.
pub fn cut(n: &[u8]) -> &[u8]
    ensures { PartOf n.entry 0 (take 64 n.now) result }
{
    &n[..n.len().min(64)]
}

fn fill_record(id: u8, res: u8, a: &[u8], x: &[u8]) -> [u8; RECORD]
    requires { (length a.now ≤ 64) × (length x.now ≤ 64) }
    ensures { result ≡ record_bytes id res a.now x.now }
{
    let mut s = [0u8; RECORD];
    s[0] = id;
    s[1] = res;
    s[2] = a.len() as u8;
    s[3] = x.len() as u8;
    octets::put(&mut s, 4, a);
    octets::put(&mut s, 68, x);
    s
}

// A record with these names; of a name longer than its field the first 64 bytes.
pub fn record_of(id: u8, res: u8, a: &[u8], x: &[u8]) -> [u8; RECORD]
    ensures { result ≡ record_of id res a.now x.now }
{
    fill_record(id, res, cut(a), cut(x))
}

// A name's length in its field.
pub fn cap_of(n: u8) -> usize
    ensures { (result ≡ cap n) × (result ≤ 64) }
{
    n.min(64) as usize
}

// A name of the record at a place, its own part of the sheet; the empty part at 0 where no whole record starts there.
fn name_at(field: Field, s: &[u8], at: usize) -> &[u8]
    requires { (field.length < 4) × (field.starts ≤ 68) }
    ensures { PartOf s.entry (name_start s.now at field.starts) (name_at field.length field.starts s.now at) result }
{
    if s.len() < RECORD || s.len() - RECORD < at {
        return &s[..0];
    }
    let from = at + field.starts;
    &s[from..from + cap_of(s[at + field.length])]
}

// The abstract name of the record at a place, its own part of the sheet; the empty part at 0 where no whole record starts there.
pub fn abstract_at(s: &[u8], at: usize) -> &[u8]
    ensures { PartOf s.entry (name_start s.now at 4) (abstract_at s.now at) result }
{
    name_at(ABSTRACT, s, at)
}

// The transfer name of the record at a place, its own part of the sheet; the empty part at 0 where no whole record starts there.
pub fn transfer_at(s: &[u8], at: usize) -> &[u8]
    ensures { PartOf s.entry (name_start s.now at 68) (transfer_at s.now at) result }
{
    name_at(TRANSFER, s, at)
}

// Whether a record goes on the run of the one before it.
pub fn same_run(r: &[u8; RECORD], next: &[u8; RECORD]) -> bool
    ensures { result ≡ same_run r.now next.now }
{
    r[0] == next[0] && octets::same_bytes(abstract_at(r, 0), abstract_at(next, 0))
}

// Whether the record behind the one at a place goes on its run.
pub fn goes_on(s: &[u8], at: usize) -> bool
    ensures { result ≡ goes_on_at s.now at }
{
    let Some(rest) = s.get(at..) else {
        return false;
    };
    match rest.as_chunks().0 {
        [r, next, ..] => same_run(r, next),
        _ => false,
    }
}
