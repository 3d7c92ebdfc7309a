// That a text's Structured Text does what its scans do. Definitions and laws only.
#![tactic(auto)]
