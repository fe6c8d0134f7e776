// The file rules: laws of map files and of sheets, their readers and their conditions. It has no code.
#![tactic(auto)]
