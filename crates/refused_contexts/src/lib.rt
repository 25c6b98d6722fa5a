// No code: that what follows the four bytes of a refused context changes nothing but where the names behind it stand, over the definitions of judging and reading.
#![tactic(auto)]
