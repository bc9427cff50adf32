// Laws that the crates above cite; see specs/.
#![tactic(auto)]
