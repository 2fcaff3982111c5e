#![tactic(auto)]

// No functions: what it means that pairs can run, the rule of the table, the schedule, swaps and choosers, over any rule of precedence.
