// A context: 20H in an RQ, 21H in an AC.
ghost use Rattle.std.specs.Prelude.{◌≡◌};
ghost use Rattle.items.specs.Items.{walk};
ghost use Rattle.contents.specs.Contents.{one, good_20h, transfer_item_ok, good_21h, context_good};

use crate::order::{Holder, Order, in_order};

// The sub-items of a 20H: one 30H, then one or more 40H, each with a name.
#[derive(Drop)]
struct Proposed;

impl Holder for Proposed {
    ghost use Rattle.contents.specs.Private.Order.{sub_good};
    ghost use Rattle.contents.specs.Private.Stages.{sub_order};

    ghost known = { λ p. sub_order };

    ghost test = { λ p. sub_good };

    fn order(&self) -> Order {
        Order {
            first: 0x30,
            many: 0x40,
            last: None,
        }
    }

    #[tactic(auto, unfolding(crate::specs::Private::Order::sub_good))]
    fn good(&self, t: u8, b: &[u8]) -> bool {
        match t {
            0x30 | 0x40 => names::name_ok(b),
            _ => true,
        }
    }
}

#[tactic(auto, using(crate::proofs::GoodLaws::short_20, crate::proofs::GoodLaws::even_20))]
fn proposed_ok(b: &[u8]) -> bool
    ensures { result ≡ good_20h b.now }
{
    let [id, _, _, _, subs @ ..] = b else {
        return false;
    };
    id % 2 == 1 && in_order(&Proposed, subs)
}

// Whether the items fill s and exactly one is of type t.
#[tactic(auto, unfolding(crate::specs::Contents::one))]
fn one_of(t: u8, s: &[u8]) -> bool
    ensures { result ≡ one t (walk s.now) }
{
    items::fills(s) && items::count_of(t, s) == 1
}

// Whether this may follow the four bytes of a 21H with this result: behind a refused context anything may.
#[tactic(auto, unfolding(crate::specs::Contents::transfer_item_ok), using(crate::proofs::GoodLaws::one_good))]
fn transfer_item_ok(res: u8, s: &[u8]) -> bool
    ensures { result ≡ transfer_item_ok res (walk s.now) }
{
    res != numbers::ACCEPTED || (one_of(0x40, s) && names::name_ok(items::first_of(0x40, s)))
}

#[tactic(auto, unfolding(crate::specs::Contents::good_21h))]
fn answered_ok(b: &[u8]) -> bool
    ensures { result ≡ good_21h b.now }
{
    let [id, _, res, _, behind @ ..] = b else {
        return false;
    };
    id % 2 == 1 && *res <= 4 && transfer_item_ok(*res, behind)
}

// Whether a context of type k may have this body.
#[tactic(auto, unfolding(crate::specs::Contents::context_good))]
pub(crate) fn context_good(k: u8, b: &[u8]) -> bool
    ensures { result ≡ context_good k b.now }
{
    if k == 0x20 {
        proposed_ok(b)
    } else {
        answered_ok(b)
    }
}
