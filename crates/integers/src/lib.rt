// Signed numbers: tests and bounds on ℤ, and the laws that let linear arithmetic speak of it. It has no code.
#![tactic(auto)]
