// Document 01's rule for the states of a span, by the words that cover it, which document 02, No. 4 replaced: both leave the same image.
#![tactic(auto)]
