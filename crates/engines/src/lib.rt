// The two engines behind one choice: what a call's Config means. Definitions and laws alone, in specs/ and proofs/.
#![tactic(auto)]
