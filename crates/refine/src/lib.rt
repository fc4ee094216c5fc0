// The tracer's words say the model's tree: proved of the flat definitions. There is no code here.

#![tactic(auto)]
