// Theorems about the desk, over the definitions of its steps: proofs/Laws.antt, Kept.antt, NeverTen.antt and Covers.antt. No function is here.
#![tactic(auto)]
