// The user information, one 50H: measured, and written.
// That the names fit (`UserFit`) stands in three clauses: `User` is the host's and takes any, and a second struct of its five fields would say no more.
ghost use Rattle.std.specs.Prelude.{◌≡◌, ◌&&◌, eqb, ◌+◌, ◌≤◌, length};
ghost use Rattle.numbers.specs.Lengths.{LONGEST};
ghost use Rattle.octets.specs.Private.Put.{Put};
ghost use Rattle.items.specs.Wire.{item_bytes};
ghost use Rattle.user_items.specs.Sent.{user_said, user_bytes};
ghost use Rattle.writing_associate.specs.Private.ContextItems.{capped};
ghost use Rattle.writing_associate.specs.Private.UserItems.{count_bytes, version_bytes, behind_51h, UserFit};

use crate::item::put_item;
use crate::role_items::{put_roles, roles_size};
use user_items::User;

// The counts that an absent 53H means.
fn one_and_one(invoked: u16, performed: u16) -> bool
    ensures { result ≡ (eqb invoked 1 && eqb performed 1) }
{
    invoked == 1 && performed == 1
}

fn counts_size(invoked: u16, performed: u16) -> usize
    ensures { (result ≡ length (count_bytes invoked performed)) × (result ≤ 8) }
{
    if one_and_one(invoked, performed) {
        0
    } else {
        8
    }
}

fn version_size(version_name: &[u8]) -> usize
    requires { length version_name.now ≤ 16 }
    ensures { (result ≡ length (version_bytes version_name.now)) × (result ≤ 20) }
{
    match version_name.len() {
        0 => 0,
        n => 4 + n,
    }
}

// The bytes of the sub-items, or 16,385 for any number above the limit.
pub(crate) fn user_size(user: User<'_>) -> usize
    requires { UserFit (user_said user) }
    ensures { result ≡ capped (length (user_bytes (user_said user.entry))) }
{
    let counts = counts_size(user.invoked, user.performed);
    let base = 12 + user.class_uid.len() + counts + version_size(user.version_name);
    roles_size(user.roles.as_chunks().0, base)
}

fn put_counts(out: &mut [u8], at: usize, invoked: u16, performed: u16) -> usize
    requires { at + length (count_bytes invoked performed) ≤ length out.old }
    ensures { Put out.old at (count_bytes invoked performed) result out.new }
{
    if one_and_one(invoked, performed) {
        return at;
    }
    let i = octets::two_of(invoked);
    let p = octets::two_of(performed);
    put_item(out, at, 0x53, &[i[0], i[1], p[0], p[1]])
}

fn put_version(out: &mut [u8], at: usize, version_name: &[u8]) -> usize
    requires { (at + length (version_bytes version_name.now) ≤ length out.old) × (length version_name.now ≤ 16) }
    ensures { Put out.old at (version_bytes version_name.now) result out.new }
{
    match version_name.len() {
        0 => at,
        _ => put_item(out, at, 0x55, version_name),
    }
}

// The sub-items behind the 51H, in rising type order.
fn put_behind_51(out: &mut [u8], at: usize, user: User<'_>) -> usize
    requires { (UserFit (user_said user)) × (at + length (behind_51h (user_said user)) ≤ length out.old) }
    ensures { Put out.old at (behind_51h (user_said user.entry)) result out.new }
{
    let a = put_item(out, at, 0x52, user.class_uid);
    let b = put_counts(out, a, user.invoked, user.performed);
    let c = put_roles(out, b, user.roles.as_chunks().0);
    put_version(out, c, user.version_name)
}

// The 50H of n bytes: our maximum length, and the sub-items behind it.
pub(crate) fn put_user(out: &mut [u8], at: usize, n: usize, user: User<'_>) -> usize
    requires { (UserFit (user_said user)) × (n ≡ length (user_bytes (user_said user))) × (n ≤ LONGEST) × (at + 4 + n ≤ length out.old) }
    ensures { Put out.old at (item_bytes 0x50 (user_bytes (user_said user.entry))) result out.new }
{
    let l = octets::two_of(n as u16);
    let head = [0x50, 0, l[0], l[1], 0x51, 0, 0, 4, 0, 0, 0x40, 0];
    let a = octets::put(out, at, &head);
    put_behind_51(out, a, user)
}
