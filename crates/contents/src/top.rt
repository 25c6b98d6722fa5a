// The items themselves, with k for the type of a context: 20H in an RQ, 21H in an AC.
ghost use Rattle.std.specs.Prelude.{◌≡◌};
ghost use Rattle.contents.specs.Contents.{items_ok};

use crate::context::context_good;
use crate::ids::ids_differ;
use crate::order::{Holder, Order, in_order};

// The items of an RQ or an AC: one 10H, one or more contexts of this type, and one 50H. Types stay numbers: the public items_ok takes any.
#[derive(Drop)]
struct Top {
    context: u8,
}

impl Holder for Top {
    ghost use Rattle.contents.specs.Contents.{top_good};
    ghost use Rattle.contents.specs.Private.Stages.{top_order};

    ghost known = { λ p. top_order p.context };

    ghost test = { λ p. top_good p.context };

    fn order(&self) -> Order {
        Order {
            first: 0x10,
            many: self.context,
            last: Some(0x50),
        }
    }

    #[tactic(auto, unfolding(crate::specs::Contents::top_good))]
    fn good(&self, t: u8, b: &[u8]) -> bool {
        match t {
            0x10 => names::name_ok(b),
            t if t == self.context => context_good(self.context, b),
            0x50 => user_items::user_ok(b),
            _ => true,
        }
    }
}

// Whether s is the items of an RQ (k is 20H) or of an AC (21H).
#[tactic(auto, unfolding(crate::specs::Contents::items_ok), using(crate::proofs::OrderLaws::top_is))]
pub fn items_ok(k: u8, s: &[u8]) -> bool
    ensures { result ≡ items_ok k s.now }
{
    in_order(&Top { context: k }, s) && ids_differ(k, s)
}
