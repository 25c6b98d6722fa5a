// No code: how much room the sheets of a valid RQ or AC can take, over the definitions of judging and reading.
#![tactic(auto)]
