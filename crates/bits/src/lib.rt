#![tactic(auto)]

// No functions: marks in a number, as a row of bits.
