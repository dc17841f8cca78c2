// What is promised of a log's bytes, given to `feed` in any pieces. All of it stands in specs/; there is no code here.
#![tactic(auto)]
