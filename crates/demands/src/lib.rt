// The demands on the whole library, as theorems; there is no code of its own here.
#![tactic(auto)]
