// Theory alone: what document 01 promises of the solver and the judge is in specs/, and that its definitions keep those promises is in proofs/. No
// function stands here.
#![tactic(auto)]
