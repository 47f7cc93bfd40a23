// Theory alone: the user's three demands in his words are in specs/; that what the entries give back keeps them, by their contracts, is in proofs/. No
// function stands here.
#![tactic(auto)]
