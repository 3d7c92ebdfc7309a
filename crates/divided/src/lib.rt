// Scans in instalments are scans: definitions and laws only.
#![tactic(auto)]
