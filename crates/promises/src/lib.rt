#![tactic(auto)]

// The demands as theorems over what the layers define and prove. No functions.
