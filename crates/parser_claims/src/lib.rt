// Theorems about the parser's lists: see specs/Claims.
#![tactic(auto)]
