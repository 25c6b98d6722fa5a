// No code: what the answers that are chosen mean, and that the calls around choosing follow one another, over the definitions of choosing, reading and writing.
#![tactic(auto)]
