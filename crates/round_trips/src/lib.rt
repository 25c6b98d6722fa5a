// No code: the round trip of all seven PDUs, over the definitions of judging, reading and writing.
#![tactic(auto)]
