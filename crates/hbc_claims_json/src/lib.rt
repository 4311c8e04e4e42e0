// No code: JSON by its RFC, and what is proved of the strings written as JSON. The statements stand in specs/, their proofs in proofs/.

#![tactic(auto)]
