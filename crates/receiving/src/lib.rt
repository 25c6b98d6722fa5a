// Receiving: the bytes of a piece go to the gather buffer, through the one that brings an event, and that event's action is done.
#![tactic(auto)]

mod gather;
mod piece;
mod received;

pub use piece::receive;
