// The bodies of the sub-items.
ghost use Rattle.std.specs.Prelude.{◌≡◌};
ghost use Rattle.octets.specs.Slice.{PartOf};
ghost use Rattle.user_items.specs.Kinds.{uid_from, uid_in, version_ok, good_54h};

// The name in a 54H, cut where that ends; the empty part at 0 where that has not even the length.
pub fn uid_in(b: &[u8]) -> &[u8]
    ensures { PartOf b.entry (uid_from b.now) (uid_in b.now) result }
{
    if b.len() < 2 {
        return &b[..0];
    }
    let n = octets::be16_at(b, 0) as usize;
    let end = b.len().min(2 + n);
    &b[2..end]
}

// Whether b is a version name: 1 to 16 bytes that a title may have. Titles test the same of a byte: one line there, one here.
#[tactic(auto, using(crate::proofs::BodyLaws::version_not))]
pub(crate) fn version_ok(b: &[u8]) -> bool
    ensures { result ≡ version_ok b.now }
{
    matches!(b.len(), 1..=16) && b.iter().all(|c| matches!(*c, 0x20..=0x7E) && *c != 0x5C)
}

// Whether a name and two roles of 0 or 1 fill the body of a 54H.
#[tactic(auto, using(crate::proofs::BodyLaws::role_parts))]
pub(crate) fn role_good(b: &[u8]) -> bool
    ensures { result ≡ good_54h b.now }
{
    let len = octets::be16_at(b, 0) as usize;
    b.len() == 2 + len + 2 && names::name_ok(uid_in(b)) && b[2 + len] <= 1 && b[3 + len] <= 1
}
