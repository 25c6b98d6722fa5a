// The sub-items of a 50H.
ghost use Rattle.std.specs.Prelude.{◌≡◌};
ghost use Rattle.items.specs.Items.{walk};
ghost use Rattle.items.specs.Steps.{left};
ghost use Rattle.user_items.specs.Kinds.{user_kinds, good_50h};
ghost use Rattle.user_items.specs.Private.OnePass.{once_in, comes, sub_ok, passes};

use crate::kinds::{body_good, known, once};
use items::{Item, Items};

// Whether one of these is of type t and has x for what must not come twice.
#[tactic(auto, using(crate::proofs::UserLaws::comes_laws))]
fn comes(t: u8, x: &[u8], among: Items) -> bool
    ensures { result ≡ comes (once_in user_kinds t) t x.now (left among.entry) }
{
    for item in among {
        let Ok(item) = item else {
            return false;
        };
        if item.kind == t && octets::same_bytes(x, once(t, item.body)) {
            return true;
        }
    }
    false
}

// Whether a sub-item may stand before these.
#[tactic(auto, unfolding(crate::specs::Private::OnePass::sub_ok))]
fn sub_ok(item: Item, behind: Items) -> bool
    ensures { result ≡ sub_ok user_kinds item.entry.kind item.entry.body.now (left behind.entry) }
{
    if !known(item.kind) {
        return true;
    }
    body_good(item.kind, item.body) && !comes(item.kind, once(item.kind, item.body), behind)
}

#[tactic(auto, unfolding(crate::specs::Private::OnePass::passes))]
fn subs_ok(s: &[u8]) -> bool
    ensures { result ≡ passes user_kinds (walk s.now) }
{
    // No `for`: those behind an item are handed on with it.
    let mut items = Items::of(s);
    while let Some(item) = items.next() {
        let Ok(item) = item else {
            return false;
        };
        if !sub_ok(item, items) {
            return false;
        }
    }
    true
}

// Whether b may be the body of a 50H.
#[tactic(auto, using(crate::proofs::UserLaws::user_is))]
pub fn user_ok(b: &[u8]) -> bool
    ensures { result ≡ good_50h b.now }
{
    items::count_of(0x51, b) >= 1 && subs_ok(b)
}
