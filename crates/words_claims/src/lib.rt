// Theorems about the exported batches: see specs/.
#![tactic(auto)]
