// Theorems about a file cut after its first k steps: proofs/Laws.antt, and rows of cuts: specs/Figures.antt. No function is here.
#![tactic(auto)]
