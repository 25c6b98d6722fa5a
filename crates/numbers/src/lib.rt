// The documents' numbers by name, with the names of specs/: the refusals, the PDUs' kinds, lengths, the results of a context. Actions and events are in `table`. The header has the names of refusals, lengths and results too.
#![tactic(auto)]

mod kinds;
mod lengths;
mod refusals;
mod results;

pub use kinds::{Kind, NO_KIND, NoKind};
pub use lengths::{BUFFER, HEADER, LONGEST, RECORD, ROLE, TEN, TITLE};
pub use refusals::{NOT_REFUSED, Refusal};
pub use results::{ABSTRACT_NOT_SUPPORTED, ACCEPTED, TRANSFER_NOT_SUPPORTED};
