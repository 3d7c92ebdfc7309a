// Demands 2 and 3 and the worked examples. Definitions and laws only.
#![tactic(auto)]
