// Theorems about every block file and record, over the definitions of `blocks`: proofs/Laws.antt and proofs/ByKind.antt. No function is here.
#![tactic(auto)]
