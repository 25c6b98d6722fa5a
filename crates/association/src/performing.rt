// What an action makes of the record, and the PDU that it sends by itself. Actions stay numbers, since `after` and `ten_by` take any.
ghost use Rattle.std.specs.Prelude.{◌≡◌};
ghost use Rattle.association.specs.Record.{standing};
ghost use Rattle.association.specs.Performing.{requestor_after, entering as enteringOf, leaving, after as after_of, ten_by};

use crate::{Assoc, Brings};
use table::Sends;

#[tactic(auto, unfolding(crate::specs::Performing::requestor_after))]
fn requestor_after(action: u8, a: Assoc) -> bool
    ensures { result ≡ requestor_after action (standing a) }
{
    action == table::AE_1 || a.requestor
}

#[tactic(auto, unfolding(crate::specs::Performing::entering, crate::specs::Performing::leaving))]
fn entering(a: Assoc) -> Assoc
    ensures { result ≡ leaving (enteringOf (standing a)) a.gathered }
{
    if a.state != 1 {
        return a;
    }
    Assoc {
        gathered: 0,
        deaf: false,
        requestor: false,
        peer_max: 0,
        ..a
    }
}

// The record after an action, where so many bytes were gathered.
#[tactic(auto, unfolding(crate::specs::Performing::after))]
pub fn after(action: u8, a: Assoc, b: Brings, gathered: usize) -> Assoc
    ensures { result ≡ leaving (after_of action (standing a) b) gathered }
{
    entering(Assoc {
        state: table::next_state(action, b.accepts, a.requestor),
        gathered,
        deaf: b.deaf,
        artim: table::artim_after(action, b.accepts, a.artim),
        requestor: requestor_after(action, a),
        peer_max: b.peer_max,
    })
}

// The number of the ten-byte PDU that an action sends by itself, 0 for none; `abort` is that of AA-7 and AA-8.
#[tactic(auto, using(crate::proofs::PerformingLaws::ten_sent))]
pub fn ten_by(action: u8, accepts: bool, abort: u8) -> u8
    ensures { result ≡ ten_by action accepts abort }
{
    match table::sends(action, accepts) {
        Sends::Nothing | Sends::Contents => writing::NO_TEN,
        Sends::RejectVersion => writing::REJECT_VERSION,
        Sends::ReleaseRq => writing::TEN_RELEASE_RQ,
        Sends::ReleaseRp => writing::TEN_RELEASE_RP,
        Sends::AbortUser => writing::ABORT_USER,
        Sends::AbortProvider => abort,
    }
}
