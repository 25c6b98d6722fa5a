// What an RJ and an ABORT may say: a match on source, then on reason with ranges.
#![tactic(auto)]

ghost use Rattle.std.specs.Prelude.{◌≡◌};
ghost use Rattle.reasons.specs.Values.{reject_ok, abort_ok};

#[tactic(auto, unfolding(crate::specs::Values::reject_ok, crate::specs::Values::reject_reasons, laws::specs::Lists::among))]
pub fn reject_ok(res: u8, source: u8, reason: u8) -> bool
    ensures { result ≡ reject_ok res source reason }
{
    matches!(res, 1..=2)
        && match source {
            1 => matches!(reason, 1..=3 | 7),
            2..=3 => matches!(reason, 1..=2),
            _ => false,
        }
}

// On receipt: the reason of source 0 is not tested.
#[tactic(auto, unfolding(crate::specs::Values::abort_ok, laws::specs::Lists::among))]
pub fn abort_ok(source: u8, reason: u8) -> bool
    ensures { result ≡ abort_ok source reason }
{
    match source {
        0 => true,
        2 => matches!(reason, 0..=2 | 4..=6),
        _ => false,
    }
}
