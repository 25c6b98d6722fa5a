// A set of IDs 0 to 255, a bit for each: document 02, E5.
#![tactic(auto)]

mod set;

pub use set::IdSet;
