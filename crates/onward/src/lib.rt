// Theorems about a run that goes on from a desk at which nobody holds or waits: proofs/Onward.antt. No function is here.
#![tactic(auto)]
