// Whether a sheet may be sent as a proposal or as an answer, or kept by a site.
ghost use Rattle.std.specs.Prelude.{◌≡◌, ◌<◌, ◌%◌, MatchOption, length};
ghost use Rattle.sheets.specs.Contexts.{transfer_name_ok};
ghost use Rattle.sheets.specs.Sheet.{records_of, field_ok, fields_ok, proposes as proposesIn, answers as answersIn, named as named_in, proposal_record, site_record, proposal_ok, answers_ok, site_ok};
ghost use Rattle.sheets.specs.Private.OneRecord.{answer_record};

use crate::ids::{ids_differ, runs_differ};
use crate::record::{abstract_at, transfer_at};
use numbers::RECORD;

// Whether the field behind a name of n bytes is unused.
#[tactic(auto, unfolding(crate::specs::Sheet::field_ok))]
pub fn field_ok(n: u8, f: &[u8]) -> bool
    ensures { result ≡ field_ok n f.now }
{
    n <= 64 && f.iter().skip(n as usize).all(|b| *b == 0)
}

#[tactic(auto, unfolding(crate::specs::Sheet::fields_ok))]
fn fields_ok(r: &[u8; RECORD]) -> bool
    ensures { result ≡ fields_ok r.now }
{
    field_ok(r[2], &r[4..68]) && field_ok(r[3], &r[68..])
}

// Result 0, and no unused byte that is not zero.
#[tactic(auto, unfolding(crate::specs::Sheet::proposes))]
fn proposes(r: &[u8; RECORD]) -> bool
    ensures { result ≡ proposesIn r.now }
{
    r[1] == 0 && fields_ok(r)
}

// Both names.
#[tactic(auto, using(crate::proofs::RecordLaws::abstract_first, crate::proofs::RecordLaws::transfer_first))]
fn named(r: &[u8; RECORD]) -> bool
    ensures { result ≡ named_in r.now }
{
    names::name_ok(abstract_at(r, 0)) && names::name_ok(transfer_at(r, 0))
}

#[tactic(auto, unfolding(crate::specs::Sheet::proposal_record))]
fn proposal_record(r: &[u8; RECORD]) -> bool
    ensures { result ≡ proposal_record r.now }
{
    proposes(r) && (r[0] % 2 == 1 && named(r))
}

// Whether the transfer name goes with the result: none with one that refuses.
#[tactic(auto, unfolding(crate::specs::Contexts::transfer_name_ok), using(crate::proofs::GoodLaws::no_name))]
fn transfer_name_ok(res: u8, x: &[u8]) -> bool
    ensures { result ≡ transfer_name_ok res x.now }
{
    if res == numbers::ACCEPTED {
        names::name_ok(x)
    } else {
        x.is_empty()
    }
}

// No abstract name, and no unused byte that is not zero.
#[tactic(auto, unfolding(crate::specs::Sheet::answers))]
fn answers(r: &[u8; RECORD]) -> bool
    ensures { result ≡ answersIn r.now }
{
    r[2] == 0 && fields_ok(r)
}

#[tactic(auto, unfolding(crate::specs::Private::OneRecord::answer_record, crate::specs::Contexts::answered_ok, crate::specs::Sheet::answered_of), using(crate::proofs::RecordLaws::transfer_first))]
fn answer_record(r: &[u8; RECORD]) -> bool
    ensures { result ≡ answer_record r.now }
{
    answers(r) && (r[0] % 2 == 1 && (r[1] <= 4 && transfer_name_ok(r[1], transfer_at(r, 0))))
}

#[tactic(auto, unfolding(crate::specs::Sheet::site_record))]
fn site_record(r: &[u8; RECORD]) -> bool
    ensures { result ≡ site_record r.now }
{
    proposes(r) && (r[0] == 0 && named(r))
}

// The records of a sheet: one or more, and no part record.
#[tactic(auto, unfolding(crate::specs::Sheet::records_of), using(laws::proofs::Library::chunk_records))]
fn records(s: &[u8]) -> Option<&[[u8; RECORD]]>
    ensures { MatchOption result (length s.now % 132 ≡ 0 → length s.now ≡ 0) (λ rs. (rs.now ≡ records_of s.now) × (length s.now % 132 ≡ 0) × (0 < length rs.now)) }
{
    let (records, rest) = s.as_chunks();
    if records.is_empty() || !rest.is_empty() {
        return None;
    }
    Some(records)
}

// Whether a proposal of these contexts may be sent.
pub fn proposal_ok(s: &[u8]) -> bool
    ensures { result ≡ proposal_ok s.now }
{
    let Some(rs) = records(s) else {
        return false;
    };
    rs.iter().all(proposal_record) && runs_differ(rs)
}

// Whether these answers may be sent.
pub fn answers_ok(s: &[u8]) -> bool
    ensures { result ≡ answers_ok s.now }
{
    let Some(rs) = records(s) else {
        return false;
    };
    rs.iter().all(answer_record) && ids_differ(rs)
}

// Whether a site may keep this sheet: the syntaxes that it takes, best liked first.
pub fn site_ok(s: &[u8]) -> bool
    ensures { result ≡ site_ok s.now }
{
    let Some(rs) = records(s) else {
        return false;
    };
    rs.iter().all(site_record)
}
