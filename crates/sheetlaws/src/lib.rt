// Laws of the graph that a global address sheet makes: it is taken, and it reaches exactly what the lines give. It has no code.
#![tactic(auto)]
