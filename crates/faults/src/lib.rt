// Refusals stated a second time. Definitions and laws only.
#![tactic(auto)]
