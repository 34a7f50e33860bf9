// Definitions and laws only: lists, tests, answers and refusals, loops, what a lent buffer holds. There is no code here.
#![tactic(auto)]
