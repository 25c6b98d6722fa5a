// Writes the ten-byte PDUs and a P-DATA-TF, each in its one form, into a lent output. (`writing_associate` writes an RQ and an AC.)
#![tactic(auto)]

mod data;
mod ten;

pub use data::write_data;
pub use ten::{
    ABORT_INVALID, ABORT_UNEXPECTED, ABORT_UNRECOGNIZED, ABORT_USER, NO_TEN, REJECT_VERSION,
    TEN_RELEASE_RP, TEN_RELEASE_RQ, ten_len, write_abort, write_reject, write_release_request,
    write_release_response, write_ten,
};
