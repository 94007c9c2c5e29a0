// Theorems about the tokenizer's lists: see specs/Claims.
#![tactic(auto)]
