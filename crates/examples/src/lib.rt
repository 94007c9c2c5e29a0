// The rows marked P of document 01, gathered into one statement: specs/Examples. There is no code here.
#![tactic(auto)]
