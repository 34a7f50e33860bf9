// What a link does to those who wait. Its functions follow.
#![tactic(auto)]
