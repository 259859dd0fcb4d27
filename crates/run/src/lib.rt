// Demand 3 as one theorem about runs of Moves and Drains: specs/Theorem.antt. There is no code here.
#![tactic(auto)]
