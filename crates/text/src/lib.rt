// No code: a sheet's three forms, in memory, as bytes and as text, are one sheet.
#![tactic(auto)]
