// No code: what "leaves one outcome" means, for every call alike. It stands in specs/.

#![tactic(auto)]
