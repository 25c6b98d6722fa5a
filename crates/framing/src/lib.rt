// No code: this crate holds framing, the reference run and its hosts, over any machine, in specs/, and cut independence, in proofs/.
#![tactic(auto)]
