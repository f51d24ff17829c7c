// Search, choice, count and order over lists: definitions that the rules are stated with, in specs/.
#![tactic(auto)]
