// The program of a text as one of Structured Text, and that both do the same. Definitions and laws only.
#![tactic(auto)]
