// Laws over the program's whole output, and no code: specs/ has their statements.
#![tactic(auto)]
