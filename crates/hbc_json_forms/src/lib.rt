// No code: what the JSON of texts is stands in specs/, its laws in proofs/.

#![tactic(auto)]
