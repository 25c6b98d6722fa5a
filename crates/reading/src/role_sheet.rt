// The roles of the user information, put into a lent role sheet in PDU order: one record for each 54H.
ghost use Rattle.std.specs.Prelude.{◌+◌, ◌≤◌, length};
ghost use Rattle.numbers.specs.Lengths.{ROLE};
ghost use Rattle.octets.specs.Private.Put.{Put};
ghost use Rattle.reading.specs.Private.Records.{role_record, all_roles};

use items::Items;

// The role bytes stand behind the name, SCU's first.
#[tactic(auto, using(crate::proofs::RoleLaws::role_laws))]
fn put_role(sheet: &mut [u8], n: usize, b: &[u8]) -> usize
    requires { n + ROLE ≤ length sheet.old }
    ensures { Put sheet.old n (role_record b.now) result sheet.new }
{
    let l = octets::be16_at(b, 0) as usize;
    let scu = octets::byte_at(b, 2 + l);
    let scp = octets::byte_at(b, 3 + l);
    let r = roles::role_of(user_items::uid_in(b), scu, scp);
    octets::put(sheet, n, &r)
}

// u is the body of the 50H.
#[tactic(auto, using(crate::proofs::FillLaws::fill_laws, crate::proofs::RoleLaws::fill_68))]
pub(crate) fn put_roles(sheet: &mut [u8], u: &[u8]) -> usize
    requires { length (all_roles u.now) ≤ length sheet.old }
    ensures { Put sheet.old 0 (all_roles u.now) result sheet.new }
{
    let mut n = 0;
    for item in Items::of(u) {
        let Ok(item) = item else {
            return n;
        };
        if item.kind == 0x54 {
            n = put_role(sheet, n, item.body);
        }
    }
    n
}
