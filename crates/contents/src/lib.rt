// The items of an RQ and of an AC: known ones in order, others skipped, and what each known one holds.
#![tactic(auto)]

mod context;
mod ids;
mod order;
mod top;
mod user;

pub use top::items_ok;
pub use user::maximum_in;
