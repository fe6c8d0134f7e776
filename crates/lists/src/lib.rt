// Lists: keeping, testing and membership, with their laws. It has no code.
#![tactic(auto)]
