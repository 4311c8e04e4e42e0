// No code: what the public calls promise, one by one and together. What is claimed stands in specs/, its proofs in proofs/.

#![tactic(auto)]
