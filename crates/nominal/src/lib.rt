// Theory alone: 003's trees, its figures 1 and 2, solutions and instances are in specs/, their laws in proofs/. No function stands here.
#![tactic(auto)]
