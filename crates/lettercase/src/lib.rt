// Texts whose names are in other letter cases. Definitions and laws only.
#![tactic(auto)]
