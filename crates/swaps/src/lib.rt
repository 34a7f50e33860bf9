// Theorems about the order of gets, puts and adds, over the definitions of the desk's steps: proofs/Swaps.antt. No function is here.
#![tactic(auto)]
