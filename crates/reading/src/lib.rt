// The fields of a received PDU. Readers know no state: they take the bytes, and judge them first; pdv_at alone looks at no more than its item.
#![tactic(auto)]

mod asked;
mod associate;
mod data;
mod fill;
mod role_sheet;
mod user;
mod valid;
mod values;

pub use associate::{Associate, read_accept, read_request};
pub use data::{Pdv, fragment, pdv_at, read_data};
pub use user::Part;
pub use values::{Abort, Reject, read_abort, read_reject};
