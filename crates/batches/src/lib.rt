// Many addresses together: what a batch gives, and the laws of its rows by single-address walks and of the order of its refusals. It has no code.
#![tactic(auto)]
