// The kinds of sub-items: which types are known, and what is asked of each.
ghost use Rattle.std.specs.Prelude.{◌≡◌};
ghost use Rattle.user_items.specs.Kinds.{user_kinds};
ghost use Rattle.user_items.specs.Private.OnePass.{known_in, good_in, once_in};

use crate::body::{role_good, uid_in, version_ok};

// A number of four bytes.
const MAXIMUM: usize = 4;

// Two numbers of two bytes.
const COUNTS: usize = 4;

// Types stay numbers: the public `items::count_of` and `first_of` take any, and every type but these is skipped.
#[tactic(auto, unfolding(crate::specs::Private::OnePass::known_in, laws::specs::Lists::among))]
pub(crate) fn known(t: u8) -> bool
    ensures { result ≡ known_in user_kinds t }
{
    matches!(t, 0x51..=0x55)
}

// Whether a sub-item may have this body.
#[tactic(auto, unfolding(crate::specs::Private::OnePass::good_in, crate::specs::Kinds::four_long))]
pub(crate) fn body_good(t: u8, b: &[u8]) -> bool
    ensures { result ≡ good_in user_kinds t b.now }
{
    match t {
        0x51 => b.len() == MAXIMUM,
        0x52 => names::name_ok(b),
        0x53 => b.len() == COUNTS,
        0x54 => role_good(b),
        0x55 => version_ok(b),
        _ => true,
    }
}

// What of a body must not come twice among those of its type: nothing where only one may come.
#[tactic(auto, unfolding(crate::specs::Private::OnePass::once_in))]
pub(crate) fn once(t: u8, b: &[u8]) -> &[u8]
    ensures { result.now ≡ once_in user_kinds t b.now }
{
    match t {
        0x54 => uid_in(b),
        _ => &b[..0],
    }
}
