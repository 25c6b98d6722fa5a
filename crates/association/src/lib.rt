// The association record by value, the refusals that it is tested for, and what an action makes of it.
#![tactic(auto)]

mod events;
mod performing;
mod refusals;

pub use events::{abort_for, event_of_kind, local_cell};
pub use performing::{after, ten_by};
pub use refusals::{dropping, fresh, length_field, record_refusal, refused};

// The state, 1 to 13; the bytes gathered; whether all bytes are dropped until Sta1; whether the ARTIM timer runs; whether this end asked for the association; the
// peer's maximum length, 0 for none.
#[derive(Clone, Copy, Debug, PartialEq, Eq)]
pub struct Assoc {
    pub state: u8,
    pub gathered: usize,
    pub deaf: bool,
    pub artim: bool,
    pub requestor: bool,
    pub peer_max: u32,
}

// What a call tells beside the record: 0 or a refusal; the action, 0 for none; the bytes used of the piece and sent; the length of the PDU now in the gather buffer,
// where it is shown. The refusal stays a number, since the clause `Stored` of assoc_bytes' `hand_out` speaks of any.
#[derive(Clone, Copy, Debug, PartialEq, Eq)]
pub struct Told {
    pub refusal: u8,
    pub action: u8,
    pub used: usize,
    pub sent: usize,
    pub shown: usize,
}

#[derive(Clone, Copy, Debug, PartialEq, Eq)]
pub struct Answer {
    pub told: Told,
    pub assoc: Assoc,
}

// What an event brings to its action: whether AE-6 accepts; the peer's maximum and deafness from now on.
#[derive(Clone, Copy, Debug, PartialEq, Eq)]
pub struct Brings {
    pub accepts: bool,
    pub peer_max: u32,
    pub deaf: bool,
}
