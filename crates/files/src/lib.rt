// Laws of result files: there and back gives the same bytes, files one behind the other move as each by itself, and what becomes of a file by its records. There is no code here.

#![tactic(auto)]
