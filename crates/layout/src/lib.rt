// How a problem's fields and an answer's are laid out in bytes, for writing and for reading back: theory alone.
#![tactic(auto)]
