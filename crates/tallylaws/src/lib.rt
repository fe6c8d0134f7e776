// Laws of the checks of callers and of the record of their counts, after one check and after any list of checks. It has no code.
#![tactic(auto)]
