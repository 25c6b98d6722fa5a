// The check of a sought title against our own: which of them it is.
ghost use Rattle.std.specs.Prelude.{◌≡◌, true, false, MatchOption};
ghost use Rattle.titles.specs.Own.{titles, list_ok, Checked};
ghost use Rattle.titles.specs.Answer.{known_in, place_in};
ghost use Rattle.numbers.specs.Refusals.{refusal_in};

use crate::equal::titles_equal;
use crate::title::title_ok;
use numbers::{Refusal, TITLE};

// Our own titles: 0 to 8 that are valid, and no part of one.
#[tactic(auto, unfolding(crate::specs::Own::list_ok))]
fn titles(own: &[u8]) -> Option<&[[u8; TITLE]]>
    ensures { MatchOption result (list_ok own.now ≡ false) (λ ts. (ts.now ≡ titles own.now) × (list_ok own.now ≡ true)) }
{
    let (titles, rest) = own.as_chunks();
    if !rest.is_empty() || 8 < titles.len() || !titles.iter().all(|t| title_ok(t)) {
        return None;
    }
    Some(titles)
}

// The place of the first of our own titles that the sought one is, from 0 to 7; None where it is none of them. The list is tested whole before it is searched.
pub fn title_place(own: &[u8], sought: &[u8]) -> Result<Option<usize>, Refusal>
    ensures { Checked own.now sought.now (refusal_in result) (known_in result) (place_in result) }
{
    if sought.len() != TITLE {
        return Err(Refusal::BadContents);
    }
    let titles = titles(own).ok_or(Refusal::BadContents)?;
    Ok(titles.iter().position(|t| titles_equal(sought, t)))
}
