// Theorems about the rules alone. All of it stands in specs/; there is no code here.
#![tactic(auto)]
