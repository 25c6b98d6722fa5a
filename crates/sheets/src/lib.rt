// The context sheet: whether a proposal or an answer may be sent, or a site's sheet kept; a record made, and what one record says; the field of a name, which the role sheet has too.
#![tactic(auto)]

mod good;
mod ids;
mod record;

pub use good::{answers_ok, field_ok, proposal_ok, site_ok};
pub use record::{abstract_at, cap_of, cut, goes_on, record_of, same_run, transfer_at};
