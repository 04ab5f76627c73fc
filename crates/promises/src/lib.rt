// Demand 3: what holds over any list of calls. There is no code here; specs/ has the sums, proofs/ the theorems.
#![tactic(auto)]
