// Chooses the answers to a proposal by the sheet that a site keeps, best liked first.
#![tactic(auto)]

mod answer;

ghost use Rattle.std.specs.Prelude.{◌≡◌, ◌*◌, ◌≤◌, length};
ghost use Rattle.octets.specs.Put.{front};
ghost use Rattle.sheets.specs.Sheet.{sheet_runs};
ghost use Rattle.choosing.specs.Call.{chosen_as, Chose};
ghost use Rattle.choosing.specs.Private.Runs.{answers_for};

use crate::answer::answer_to;
use numbers::{RECORD, Refusal};

// How many contexts there are.
fn count(proposal: &[[u8; RECORD]]) -> usize
    ensures { result ≡ length (sheet_runs proposal.now) }
{
    proposal
        .chunk_by(|r, next| sheets::same_run(r, next))
        .count()
}

// Writes the answers, a record for each context.
fn put_answers(answer: &mut [u8], proposal: &[[u8; RECORD]], site: &[[u8; RECORD]])
    requires { 132 * length (sheet_runs proposal.now) ≤ length answer.old }
    ensures { answer.new ≡ front answer.old (answers_for proposal.now site.now) }
{
    let mut n = 0;
    for run in proposal.chunk_by(|r, next| sheets::same_run(r, next)) {
        n = octets::put(answer, n, &answer_to(run, site));
    }
}

// Chooses for each context of the proposal: the first record of the site's sheet that matches it, or none. Answers how many records the answer sheet starts with.
pub fn choose(proposal: &[u8], site: &[u8], answer: &mut [u8]) -> Result<usize, Refusal>
    ensures { Chose proposal.now site.now answer.old (chosen_as result) answer.new }
{
    if !sheets::proposal_ok(proposal) {
        return Err(Refusal::BadContents);
    }
    if !sheets::site_ok(site) {
        return Err(Refusal::BadContents);
    }
    let proposed = proposal.as_chunks().0;
    let n = count(proposed);
    if answer.len() / RECORD < n {
        return Err(Refusal::ShortOutput);
    }
    put_answers(answer, proposed, site.as_chunks().0);
    Ok(n)
}
