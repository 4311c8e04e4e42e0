// No code: what the clean-bundle profile promises. The statements stand in specs/, their proofs in proofs/.

#![tactic(auto)]
