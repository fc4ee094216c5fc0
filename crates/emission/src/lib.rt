// Emission over the words of the table gives the model's schema: proved of the flat definitions. There is no code here.

#![tactic(auto)]
