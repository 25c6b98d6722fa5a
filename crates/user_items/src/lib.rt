// The sub-items of the user information: which are good, what they say, and what may be sent.
#![tactic(auto)]

mod body;
mod kinds;
mod sent;
mod user;

pub use body::uid_in;
pub use sent::{User, user_good};
pub use user::user_ok;
