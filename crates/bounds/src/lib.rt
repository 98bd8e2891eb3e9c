// Laws alone: the values of the definitions are words.

#![tactic(auto)]
