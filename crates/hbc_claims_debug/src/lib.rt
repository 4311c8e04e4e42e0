// No code: what the calls on the debug section promise, one by one and together. specs/ has the statements, proofs/ what proves them.

#![tactic(auto)]
