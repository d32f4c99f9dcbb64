// Runs of machines, and machines that track one another: definitions and laws, and no code.
#![tactic(auto)]
