// The known items of a holder: the order in which they stand, and what each holds.
ghost use Rattle.std.specs.Prelude.{◌≡◌, eqb};
ghost use Rattle.items.specs.Items.{walk};
ghost use Rattle.items.specs.Private.Rules.{keeps};
ghost use Rattle.contents.specs.Private.Stages.{stage_number, stage_after, next_in, last_stage, rule_of};

use items::Items;

// How far known items in order have come.
#[derive(Clone, Copy, PartialEq, Eq)]
pub(crate) enum Stage {
    Start,
    First,
    Many,
    Last,
}

// The known types in their order: one item of type `first`, one or more of type `many`, and one of type `last` where there is such a type.
#[derive(Clone, Copy)]
pub(crate) struct Order {
    pub(crate) first: u8,
    pub(crate) many: u8,
    pub(crate) last: Option<u8>,
}

impl Order {
    // The stage after an item of type t; None where that is out of order.
    #[tactic(auto, unfolding(crate::specs::Private::Order::next))]
    fn next(self, stage: Stage, t: u8) -> Option<Stage>
        ensures { stage_after result ≡ next_in self (stage_number stage) t }
    {
        if t == self.first {
            (stage == Stage::Start).then_some(Stage::First)
        } else if t == self.many {
            matches!(stage, Stage::First | Stage::Many).then_some(Stage::Many)
        } else if Some(t) == self.last {
            (stage == Stage::Many).then_some(Stage::Last)
        } else {
            Some(stage)
        }
    }

    // Whether nothing is missing at this stage.
    fn complete(self, stage: Stage) -> bool
        ensures { result ≡ eqb (stage_number stage) (last_stage self) }
    {
        match self.last {
            Some(_) => stage == Stage::Last,
            None => stage == Stage::Many,
        }
    }
}

// A holder of items.
pub(crate) trait Holder {
    ghost use Rattle.std.specs.Prelude.{ℕ, List, Bool};
    ghost use Rattle.contents.specs.declared.order.Order.{Order};

    ghost known: { Self → Order };

    ghost test: { Self → ℕ → List ℕ → Bool };

    fn order(&self) -> Order
        ensures { result ≡ known self.now };

    // Whether an item may have this body.
    fn good(&self, t: u8, b: &[u8]) -> bool
        ensures { result ≡ test self.now t b.now };
}

// Whether the items fill s, and the known ones stand in the holder's order, each with a good body.
pub(crate) fn in_order<H: Holder>(holder: &H, s: &[u8]) -> bool
    ensures { result ≡ keeps (rule_of (H.known holder.now) (H.test holder.now)) 0 (walk s.now) }
{
    let order = holder.order();
    let mut stage = Stage::Start;
    for item in Items::of(s) {
        let Ok(item) = item else {
            return false;
        };
        if !holder.good(item.kind, item.body) {
            return false;
        }
        let Some(next) = order.next(stage, item.kind) else {
            return false;
        };
        stage = next;
    }
    order.complete(stage)
}
