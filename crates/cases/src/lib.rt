// No code: this crate holds document 01's table of cases, in specs/, and the one statement that it is met, in proofs/.
#![tactic(auto)]
