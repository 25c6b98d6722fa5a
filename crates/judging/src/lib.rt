// Whether bytes are one of the seven PDUs (document 01, 'Valid PDUs', as document 02 mends it).
#![tactic(auto)]

mod kind;
mod whole;

pub use kind::{acceptable, kind_of, maximum_of};
