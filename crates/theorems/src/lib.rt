// Laws over the whole decoder, and no code: specs/ has their statements.
#![tactic(auto)]
