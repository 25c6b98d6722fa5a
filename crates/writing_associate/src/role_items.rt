// The 54H items of a role sheet: measured, and written, a record at a time.
ghost use Rattle.std.specs.Prelude.{◌≡◌, ◌+◌, ◌≤◌, length};
ghost use Rattle.numbers.specs.Lengths.{LONGEST};
ghost use Rattle.octets.specs.Private.Put.{Put};
ghost use Rattle.writing_associate.specs.Private.ContextItems.{capped};
ghost use Rattle.writing_associate.specs.Private.RoleItems.{role_bytes, role_items};
ghost use Rattle.roles.specs.Sheet.{role_in};

use numbers::ROLE;

#[tactic(auto, using(crate::proofs::RoleLaws::uid_is, crate::proofs::RoleLaws::uid_64))]
fn uid_of(r: &[u8; ROLE]) -> &[u8]
    ensures { (result.now ≡ (role_in r.now).uid) × (length result.now ≤ 64) }
{
    roles::uid_at(r, 0)
}

// The bytes of `base` and of the records' 54H items. Any number above the limit gives 16,385, so no sum wraps.
pub(crate) fn roles_size(rs: &[[u8; ROLE]], base: usize) -> usize
    requires { base ≤ LONGEST }
    ensures { result ≡ capped (base + length (role_items rs.now)) }
{
    let mut n = base;
    for r in rs {
        n += 8 + uid_of(r).len();
        if numbers::LONGEST < n {
            return numbers::LONGEST + 1;
        }
    }
    n
}

// The 54H of the record: the length of its UID, the UID, the two roles.
fn put_role(out: &mut [u8], at: usize, r: &[u8; ROLE]) -> usize
    requires { at + length (role_bytes r.now) ≤ length out.old }
    ensures { Put out.old at (role_bytes r.now) result out.new }
{
    let uid = uid_of(r);
    let l = octets::two_of(uid.len() as u16 + 4);
    let k = octets::two_of(uid.len() as u16);
    let a = octets::put(out, at, &[0x54, 0, l[0], l[1], k[0], k[1]]);
    let b = octets::put(out, a, uid);
    octets::put(out, b, &[r[1], r[2]])
}

// The records' 54H items.
pub(crate) fn put_roles(out: &mut [u8], from: usize, rs: &[[u8; ROLE]]) -> usize
    requires { from + length (role_items rs.now) ≤ length out.old }
    ensures { Put out.old from (role_items rs.now) result out.new }
{
    let mut n = from;
    for r in rs {
        n = put_role(out, n, r);
    }
    n
}
