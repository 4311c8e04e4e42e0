// No code: what a text is, and what the calls that write one promise. The statements stand in specs/, their proofs in proofs/.

#![tactic(auto)]
