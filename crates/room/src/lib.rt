// Theory alone: how much room a run and its answer take, whatever the problem: no stack holds over 576 equations, no answer is over 16,384 bytes.
#![tactic(auto)]
