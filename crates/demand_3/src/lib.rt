// No code: this crate holds the calls as a host sees them, in specs/, and demand 3 for them, in proofs/.
#![tactic(auto)]
