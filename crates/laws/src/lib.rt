// Theorems over the definitions alone. There is no code here: the statements and their proofs stand in specs/ and proofs/.

#![tactic(auto)]
