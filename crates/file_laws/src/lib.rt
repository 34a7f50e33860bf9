// What demand 3 says of a file: a law over the definitions of `replay` and `history`.
#![tactic(auto)]
