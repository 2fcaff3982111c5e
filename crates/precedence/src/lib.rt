#![tactic(auto)]

// No functions: what the checks of a static circuit tell of its wires, the precedence of its instructions, and the start of the table.
