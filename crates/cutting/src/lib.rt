// Definitions and laws only: a file cut after its first k steps.
#![tactic(auto)]
