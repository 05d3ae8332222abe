// No code: how firings on a calm sheet commute, and what every order of them leaves.
#![tactic(auto)]
