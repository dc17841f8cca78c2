// Document 01 as definitions that compute. All of it stands in specs/; there is no code here.
#![tactic(auto)]
