// Laws of the files that the engine makes: which of them the mover takes back to the old form, and what they are then. There is no code here.

#![tactic(auto)]
