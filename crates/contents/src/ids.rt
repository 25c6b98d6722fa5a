// The search for an ID that comes twice.
ghost use Rattle.std.specs.Prelude.{◌≡◌};
ghost use Rattle.laws.specs.Lists.{distinct};
ghost use Rattle.items.specs.Items.{walk};
ghost use Rattle.contents.specs.Contents.{ids};

use id_set::IdSet;
use items::Items;

// Whether no ID comes twice among the contexts of type k: each that was seen is marked, and they are gone over once. The ID of an empty body counts as 0.
#[tactic(auto, using(crate::proofs::IdLaws::seeking))]
pub(crate) fn ids_differ(k: u8, s: &[u8]) -> bool
    ensures { result ≡ distinct (ids k (walk s.now)) }
{
    let mut seen = IdSet::empty();
    for item in Items::of(s) {
        let Ok(item) = item else {
            return true;
        };
        if item.kind == k && !seen.insert(item.body.first().copied().unwrap_or(0)) {
            return false;
        }
    }
    true
}
