// Proofs only: that the rules over paths, as the code follows them, are the rules of documents 01 and 02 over the tree.

#![tactic(auto)]
