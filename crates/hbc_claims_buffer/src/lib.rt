// No code: what the calls on literals promise together, and one by one. The theorems stand in specs/.

#![tactic(auto)]
