// What a link does to the tables. Its functions follow.
#![tactic(auto)]
