// No code: what the calls on function tables promise together, and one by one. The theorems stand in specs/.

#![tactic(auto)]
