// No code: each exported call determines its answer and every word that is lent to it. The theorems stand in specs/.

#![tactic(auto)]
