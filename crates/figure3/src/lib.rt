// Theory alone: 003's figure 3 is in specs/; that the run is one run of its transformations, and that every run ends, is in proofs/. No function
// stands here.
#![tactic(auto)]
