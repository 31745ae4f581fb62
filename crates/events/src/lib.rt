// Laws of reading on from one event of a deck to the next; no code.

#![tactic(auto)]
