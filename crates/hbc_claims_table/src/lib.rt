// No code: what the calls on lent tables and strings promise. The statements stand in specs/, their proofs in proofs/.

#![tactic(auto)]
