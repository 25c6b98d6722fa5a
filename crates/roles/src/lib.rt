// The role sheet: whether one may be sent; a record made, and its UID.
#![tactic(auto)]

mod good;
mod record;

pub use good::roles_ok;
pub use record::{role_of, uid_at};
