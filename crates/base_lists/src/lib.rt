// No code: the lists that the specifications are made of, and their laws.
#![tactic(auto)]
