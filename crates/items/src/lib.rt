// The walk over a holder's items: where an item ends, and what stands in those of a type.
#![tactic(auto)]

ghost use Rattle.std.specs.Prelude.{◌≡◌, length};
ghost use Rattle.std.specs.Iterator.{at_most};
ghost use Rattle.octets.specs.Slice.{PartOf};
ghost use Rattle.items.specs.Items.{walk, filled, bodies, first, place, item_end};
ghost use Rattle.items.specs.Steps.{place_or_none, rest_of, Steps};

// The place behind the item at `at`; none where no whole item stands there.
#[tactic(auto, using(crate::proofs::StepLaws::end_rules))]
pub fn item_end(s: &[u8], at: usize) -> Option<usize>
    ensures { result ≡ place_or_none (item_end s.now at) }
{
    let room = s.len().checked_sub(4)?.checked_sub(at)?;
    let n = octets::be16_at(s, at + 2) as usize;
    if room < n {
        return None;
    }
    Some(at + 4 + n)
}

// An item: its type and its body.
#[derive(Clone, Copy)]
pub struct Item<'a> {
    pub kind: u8,
    pub body: &'a [u8],
}

// Bytes that are no whole item.
#[derive(Clone, Copy)]
pub struct Broken;

// The items of a holder's bytes, one after another; behind bytes that are no whole item there is none.
#[derive(Clone, Copy)]
pub struct Items<'a> {
    rest: &'a [u8],
}

impl<'a> Items<'a> {
    pub fn of(s: &'a [u8]) -> Items<'a>
        ensures { rest_of result ≡ s.entry }
    {
        Items { rest: s }
    }
}

impl<'a> Iterator for Items<'a> {
    type Item = Result<Item<'a>, Broken>;

    ghost next_gives = { Steps };

    ghost remaining = { λ s. at_most (length (rest_of s).now) };

    fn next(&mut self) -> Option<Result<Item<'a>, Broken>> {
        let s = self.rest;
        if s.is_empty() {
            return None;
        }
        let Some(end) = item_end(s, 0) else {
            self.rest = &s[..0];
            return Some(Err(Broken));
        };
        self.rest = &s[end..];
        Some(Ok(Item {
            kind: s[0],
            body: &s[4..end],
        }))
    }
}

// Whether the items fill s.
#[tactic(auto, unfolding(crate::specs::Items::filled))]
pub fn fills(s: &[u8]) -> bool
    ensures { result ≡ filled (walk s.now) }
{
    for item in Items::of(s) {
        let Ok(_) = item else {
            return false;
        };
    }
    true
}

// How many items of type t there are.
#[tactic(auto, unfolding(crate::specs::Items::bodies))]
pub fn count_of(t: u8, s: &[u8]) -> usize
    ensures { result ≡ length (bodies t (walk s.now)) }
{
    let mut n = 0;
    for item in Items::of(s) {
        let Ok(item) = item else {
            return n;
        };
        if item.kind == t {
            n += 1;
        }
    }
    n
}

// The body of the first item of type t; where there is none, the empty part at the place where the items end.
#[tactic(auto, unfolding(crate::specs::Items::bodies, crate::specs::Items::place))]
pub fn first_of(t: u8, s: &[u8]) -> &[u8]
    ensures { PartOf s.entry (place t (walk s.now)) (first (bodies t (walk s.now))) result }
{
    // No `for`: where it ends, what is left is handed out.
    let mut items = Items::of(s);
    while let Some(Ok(item)) = items.next() {
        if item.kind == t {
            return item.body;
        }
    }
    items.rest
}

// The place of that body; where there is none, the place where the items end.
#[tactic(auto, unfolding(crate::specs::Items::place))]
pub fn place_of(t: u8, s: &[u8]) -> usize
    ensures { result ≡ place t (walk s.now) }
{
    let mut at = 0;
    for item in Items::of(s) {
        let Ok(item) = item else {
            return at;
        };
        if item.kind == t {
            return at + 4;
        }
        at += 4 + item.body.len();
    }
    at
}
