// What is promised of replaying a voyage: statements in specs/, proved in proofs/. There is no code here.
#![tactic(auto)]
