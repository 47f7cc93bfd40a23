// Theory alone: document 01's run, answer and judge are in specs/, as functions that compute; what they promise is in proofs/. No function
// stands here.
#![tactic(auto)]
