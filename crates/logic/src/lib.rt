// Definitions and lemmas that speak of tests, lists and tables alone. There is no code here.

#![tactic(auto)]
