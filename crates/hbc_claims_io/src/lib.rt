// No code: what the public calls promise, one by one and together. The theorems stand in specs/.

#![tactic(auto)]
