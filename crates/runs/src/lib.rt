// Lists of steps over the desk: calls, events, the state between two steps, and a run (specs/Run.antt). No function is here.
#![tactic(auto)]
