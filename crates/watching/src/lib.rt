// What a watch formula reports of a trace. Definitions and laws only.
#![tactic(auto)]
