// Laws of decks that were accepted before request 7: their answers stay; no code.

#![tactic(auto)]
