// Demand 3, proved of the model: equal schemas and equal censuses, and what reordering changes. There is no code here.

#![tactic(auto)]
