// No code: this crate holds demand 2, in specs/: what the cells of Table 9-10 ask of an engine, and what an answered call sends; and in proofs/ that the calls meet it, with what every call keeps.
#![tactic(auto)]
