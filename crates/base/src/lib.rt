// Mathematics that no clause of docs/RULES.md speaks of: tests, sums, digits and parts of a list.
// It is all in specs/; there is no code here.
#![tactic(auto)]
