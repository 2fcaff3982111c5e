#![tactic(auto)]

// No functions: the choice by a test, and laws of tests and lists that every crate cites.
