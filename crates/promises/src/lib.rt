// What the boards rely on, stated over the public calls and proved (proofs/). No code.
#![tactic(auto)]
