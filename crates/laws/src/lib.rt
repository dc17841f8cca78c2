// Generic laws of tests and lists. All of it stands in specs/; there is no code here.
#![tactic(auto)]
