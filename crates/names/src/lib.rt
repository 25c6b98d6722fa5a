// Names (UIDs): document 01, "Valid PDUs".
#![tactic(auto)]

mod name;

pub use name::name_ok;
