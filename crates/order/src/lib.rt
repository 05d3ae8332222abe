// No code: neither the order of firings nor a rewriting can change what reaches the glass.
#![tactic(auto)]
