// Theorems about layouts joined at a top-level line: see specs/.
#![tactic(auto)]
