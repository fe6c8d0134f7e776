// Laws of walks and paths by the edges that enter a node. It has no code.
#![tactic(auto)]
