// Table 9-10 of PS3.8 and the actions of Tables 9-6 to 9-9, as numbers.
#![tactic(auto)]

mod actions;
mod events;
mod sent;

ghost use Rattle.std.specs.Prelude.{◌≡◌, ◌+◌, ◌-◌, ◌*◌, ◌≤◌, ◌<◌, false, ◌∷◌, get_or};
ghost use Rattle.table.specs.Actions.{does_of, next_of, shows_of, artim_of, sends_number};
ghost use Rattle.table.specs.Sent.{sent_number};
ghost use Rattle.table.specs.Table.{cell_of, is_received};

pub use actions::{
    AA_1, AA_2, AA_3, AA_4, AA_5, AA_6, AA_7, AA_8, AE_1, AE_2, AE_3, AE_4, AE_5, AE_6, AE_7, AE_8,
    AR_1, AR_2, AR_3, AR_4, AR_5, AR_6, AR_7, AR_8, AR_9, AR_10, DT_1, DT_2, NO_ACTION,
};
pub use events::{
    ABORT_RECEIVED, ABORT_REQUEST, AC_RECEIVED, ACCEPT_RESPONSE, ARTIM_EXPIRED, ASSOCIATE_REQUEST,
    DATA_RECEIVED, DATA_REQUEST, INVALID_RECEIVED, REJECT_RESPONSE, RELEASE_REQUEST,
    RELEASE_RESPONSE, RELEASE_RP_RECEIVED, RELEASE_RQ_RECEIVED, RJ_RECEIVED, RQ_RECEIVED,
    TRANSPORT_CLOSED, TRANSPORT_CONFIRM, TRANSPORT_INDICATION,
};
pub use sent::Sends;

// The actions' numbers (0a DT-2, 14 AR-10, 15 to 1c AA-1 to AA-8): a line to an event, 1 to 19, of states 1 to 13.
const CELLS: [u8; 247] = *b"\
    \x01\x00\x00\x00\x00\x00\x00\x00\x00\x00\x00\x00\x00\
    \x00\x00\x00\x02\x00\x00\x00\x00\x00\x00\x00\x00\x00\
    \x00\x15\x1c\x00\x03\x1c\x1c\x1c\x1c\x1c\x1c\x1c\x1a\
    \x00\x15\x1c\x00\x04\x1c\x1c\x1c\x1c\x1c\x1c\x1c\x1a\
    \x05\x00\x00\x00\x00\x00\x00\x00\x00\x00\x00\x00\x00\
    \x00\x06\x1c\x00\x1c\x1c\x1c\x1c\x1c\x1c\x1c\x1c\x1b\
    \x00\x00\x07\x00\x00\x00\x00\x00\x00\x00\x00\x00\x00\
    \x00\x00\x08\x00\x00\x00\x00\x00\x00\x00\x00\x00\x00\
    \x00\x00\x00\x00\x00\x09\x00\x11\x00\x00\x00\x00\x00\
    \x00\x15\x1c\x00\x1c\x0a\x10\x1c\x1c\x1c\x1c\x1c\x1a\
    \x00\x00\x00\x00\x00\x0b\x00\x00\x00\x00\x00\x00\x00\
    \x00\x15\x1c\x00\x1c\x0c\x12\x1c\x1c\x1c\x1c\x1c\x1a\
    \x00\x15\x1c\x00\x1c\x1c\x0d\x1c\x1c\x14\x0d\x1c\x1a\
    \x00\x00\x00\x00\x00\x00\x00\x0e\x13\x00\x00\x0e\x00\
    \x00\x00\x15\x16\x15\x15\x15\x15\x15\x15\x15\x15\x00\
    \x00\x16\x17\x00\x17\x17\x17\x17\x17\x17\x17\x17\x16\
    \x00\x19\x18\x18\x18\x18\x18\x18\x18\x18\x18\x18\x0f\
    \x00\x16\x00\x00\x00\x00\x00\x00\x00\x00\x00\x00\x16\
    \x00\x15\x1c\x00\x1c\x1c\x1c\x1c\x1c\x1c\x1c\x1c\x1b";

// The next states of AE-1 to AE-8, of DT-1 and DT-2, of AR-1 to AR-10 and of AA-1 to AA-8; of AE-6 when it rejects, of AR-8 for the acceptor.
const NEXTS: [u8; 28] = *b"\
    \x04\x05\x06\x01\x02\x0d\x06\x0d\
    \x06\x06\
    \x07\x08\x01\x0d\x01\x07\x08\x0a\x0b\x0c\
    \x0d\x01\x01\x01\x01\x0d\x0d\x0d";

// The place of a cell in the constant.
fn place(event: u8, state: u8) -> usize
    requires { (1 ≤ event) × ((event < 20) × ((1 ≤ state) × (state < 14))) }
    ensures { (result ≡ (event - 1) * 13 + (state - 1)) × (result < 247) }
{
    (usize::from(event) - 1) * 13 + (usize::from(state) - 1)
}

// The action at an event in a state; 0 at a blank cell, and outside the table.
pub fn cell(event: u8, state: u8) -> u8
    ensures { result ≡ cell_of event state }
{
    if event < 1 {
        return NO_ACTION;
    }
    if 19 < event {
        return NO_ACTION;
    }
    if state < 1 {
        return NO_ACTION;
    }
    if 13 < state {
        return NO_ACTION;
    }
    let at = place(event, state);
    CELLS[at]
}

// The state after an action: `accepts` is asked at AE-6 and `requestor` at AR-8. 0 where there is no such action.
pub fn next_state(action: u8, accepts: bool, requestor: bool) -> u8
    ensures { result ≡ next_of action accepts requestor }
{
    if action == AE_6 {
        if accepts {
            return 3;
        }
        return 13;
    }
    if action == AR_8 {
        if requestor {
            return 9;
        }
        return 10;
    }
    if action < 1 {
        return 0;
    }
    if 28 < action {
        return 0;
    }
    NEXTS[usize::from(action) - 1]
}

// Whether the ARTIM timer runs after an action, where it did or did not before.
#[tactic(auto, unfolding(crate::specs::Actions::artim_of, crate::specs::Actions::does_of, crate::specs::Actions::actions))]
pub fn artim_after(action: u8, accepts: bool, before: bool) -> bool
    ensures { result ≡ artim_of action accepts before }
{
    match action {
        AE_6 => !accepts,
        AE_5 | AE_8 | AR_4 | AA_1 | AA_8 => true,
        AR_5 | AA_2 | AA_5 => false,
        _ => before,
    }
}

// Whether an action shows the PDU received.
#[tactic(auto, unfolding(crate::specs::Actions::shows_of, crate::specs::Actions::does_of, crate::specs::Actions::actions))]
pub fn shows(action: u8, accepts: bool) -> bool
    ensures { result ≡ shows_of action accepts }
{
    match action {
        AE_6 => accepts,
        AE_3 | AE_4 | DT_2 | AR_6 | AA_3 => true,
        _ => false,
    }
}

// What an action sends: a line for each that sends, as Tables 9-6 to 9-9 have one.
#[tactic(auto, unfolding(crate::specs::Actions::does_of, crate::specs::Actions::actions))]
pub fn sends(action: u8, accepts: bool) -> Sends
    ensures { sent_number result ≡ sends_number (does_of action accepts false).sends }
{
    match action {
        AE_6 if accepts => Sends::Nothing,
        AE_6 => Sends::RejectVersion,
        AE_2 | AE_7 | AE_8 | DT_1 | AR_7 => Sends::Contents,
        AR_1 => Sends::ReleaseRq,
        AR_4 | AR_9 => Sends::ReleaseRp,
        AA_1 => Sends::AbortUser,
        AA_7 => Sends::AbortProvider,
        AA_8 => Sends::AbortProvider,
        _ => Sends::Nothing,
    }
}

// Whether bytes bring the event: the rows of PDUs.
#[tactic(auto, unfolding(crate::specs::Table::is_received, laws::specs::Lists::among))]
pub fn is_received(event: u8) -> bool
    ensures { result ≡ is_received event }
{
    matches!(
        event,
        AC_RECEIVED
            | RJ_RECEIVED
            | RQ_RECEIVED
            | DATA_RECEIVED
            | RELEASE_RQ_RECEIVED
            | RELEASE_RP_RECEIVED
            | ABORT_RECEIVED
            | INVALID_RECEIVED
    )
}
