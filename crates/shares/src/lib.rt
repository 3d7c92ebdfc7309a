// Shares are exact and rule sets do not meet: definitions and laws only.
#![tactic(auto)]
