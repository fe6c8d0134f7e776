// Readings: how the open places of documents 01 and 02 are read, as cases that are computed from the definitions of crate model. It has no code.
#![tactic(auto)]
