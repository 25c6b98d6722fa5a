// The association's record as the 16 bytes that a host lends, and what a call on them hands out.
#![tactic(auto)]

mod assoc;

pub use assoc::{assoc_of, bytes_of, hand_out};
