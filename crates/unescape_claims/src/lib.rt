// Theorems about unescaping: see specs/Claims and specs/ByText.
#![tactic(auto)]
