// The cases that document 01 marks P, and blobs that document 02, No. 2 calls sound or not: two tables with a statement each, in specs/.
#![tactic(auto)]
