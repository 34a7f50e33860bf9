// The theorems of the desk on one page, proofs/Theorems.antt, in the order of the customer's demands. No function is here.
#![tactic(auto)]
