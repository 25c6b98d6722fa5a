// Whether a role sheet may be sent.
ghost use Rattle.std.specs.Prelude.{◌≡◌, map};
ghost use Rattle.laws.specs.Lists.{differ};
ghost use Rattle.roles.specs.Record.{uid_at as uidAt};
ghost use Rattle.roles.specs.Sheet.{unused_zero as unusedZero, role_sheet_ok};
ghost use Rattle.roles.specs.Private.OneRecord.{record_ok};

use crate::record::uid_at;
use numbers::ROLE;

// The fourth byte, and those behind the name.
#[tactic(auto, unfolding(crate::specs::Sheet::unused_zero))]
fn unused_zero(r: &[u8; ROLE]) -> bool
    ensures { result ≡ unusedZero r.now }
{
    r[3] == 0 && sheets::field_ok(r[0], &r[4..])
}

#[tactic(auto, unfolding(crate::specs::Private::OneRecord::record_ok, crate::specs::Role::role_ok, crate::specs::Sheet::role_in), using(crate::proofs::RecordLaws::uid_first))]
fn record_ok(r: &[u8; ROLE]) -> bool
    ensures { result ≡ record_ok r.now }
{
    unused_zero(r) && (names::name_ok(uid_at(r, 0)) && (r[1] <= 1 && r[2] <= 1))
}

// Whether no two records have the same UID.
fn uids_differ(rs: &[[u8; ROLE]]) -> bool
    ensures { result ≡ differ (map (λ r. uidAt r 0) rs.now) }
{
    let mut rest = rs;
    while let Some((r, others)) = rest.split_first() {
        let uid = uid_at(r, 0);
        if others
            .iter()
            .any(|other| octets::same_bytes(uid, uid_at(other, 0)))
        {
            return false;
        }
        rest = others;
    }
    true
}

// Whether these roles may be sent: none, or whole records of good roles, each of another UID.
pub fn roles_ok(s: &[u8]) -> bool
    ensures { result ≡ role_sheet_ok s.now }
{
    let (records, part) = s.as_chunks();
    part.is_empty() && (records.iter().all(record_ok) && uids_differ(records))
}
