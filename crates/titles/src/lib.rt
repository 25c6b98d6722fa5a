// Application entity titles: document 01, "Valid PDUs" and "Titles"; document 02, E3.
#![tactic(auto)]

mod equal;
mod own;
mod title;

pub use equal::titles_equal;
pub use own::title_place;
pub use title::title_ok;
