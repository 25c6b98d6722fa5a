// The C surface: functions on numbers and byte slices, thin over the calls by value. include/feohanna.h wraps them for a host.
#![tactic(auto)]

mod calls;
mod choose;
mod fresh;
mod readers;
mod title;

pub use calls::{
    feo_raw_accept, feo_raw_confirm, feo_raw_event, feo_raw_receive, feo_raw_reject, feo_raw_send,
};
pub use choose::feo_raw_choose;
pub use fresh::feo_raw_fresh;
pub use readers::{
    feo_raw_pdv_at, feo_raw_read_abort, feo_raw_read_accept, feo_raw_read_data,
    feo_raw_read_reject, feo_raw_read_request,
};
pub use title::feo_raw_title_place;
