// The PDV items of a P-DATA-TF.
#![tactic(auto)]

ghost use Rattle.std.specs.Prelude.{◌≡◌, ◌+◌, ◌≤◌, length, IfSome};
ghost use Rattle.std.specs.Iterator.{YieldsFirstBy, item_count};
ghost use Rattle.pdvs.specs.Data.{pdvs, pdvs_ok, item_end};
ghost use Rattle.pdvs.specs.Private.Read.{pdv_read};

// The place behind the PDV item at `at`: its length is at least 2 and it ends within s. None where none stands there.
#[tactic(auto, using(crate::proofs::EndLaws::no_head, crate::proofs::EndLaws::no_room, crate::proofs::EndLaws::none_there, crate::proofs::EndLaws::one_there))]
pub fn pdv_end(s: &[u8], at: usize) -> Option<usize>
    ensures place { result ≡ item_end s.now at }
    ensures within { IfSome result (λ end. (at + 6 ≤ end) × (end ≤ length s.now)) }
{
    let room = s.len().checked_sub(6)?.checked_sub(at)?;
    let n = octets::be32_at(s, at) as usize;
    if n < 2 || room + 2 < n {
        return None;
    }
    Some(at + 4 + n)
}

// A PDV: what an item holds behind its length.
#[derive(Clone, Copy)]
struct Pdv<'a> {
    id: u8,
    control: u8,
    fragment: &'a [u8],
}

// The PDVs of the items that stand at the start of these bytes, one behind the other.
#[derive(Drop)]
struct Pdvs<'a>(&'a [u8]);

impl<'a> Iterator for Pdvs<'a> {
    type Item = Pdv<'a>;

    ghost next_gives = { YieldsFirstBy pdv_read (λ s. pdvs s.0.now) };

    ghost remaining = { item_count (λ s. pdvs s.0.now) };

    #[tactic(auto, using(crate::proofs::EndLaws::no_item))]
    fn next(&mut self) -> Option<Pdv<'a>> {
        let s = self.0;
        let end = pdv_end(s, 0)?;
        self.0 = &s[end..];
        Some(Pdv {
            id: s[4],
            control: s[5],
            fragment: &s[6..end],
        })
    }
}

// Whether s is one or more PDV items that fill it, each with an odd ID and a control byte of at most `most`.
pub fn pdvs_ok(most: u8, s: &[u8]) -> bool
    ensures { result ≡ pdvs_ok most s.now }
{
    let mut taken = 0;
    for pdv in Pdvs(s) {
        if pdv.id % 2 != 1 || most < pdv.control {
            return false;
        }
        taken += 6 + pdv.fragment.len();
    }
    !s.is_empty() && taken == s.len()
}
