// No code: this crate holds the definitions on lists that the others share, in specs/, and the laws that every proof cites, in proofs/.
#![tactic(auto)]
