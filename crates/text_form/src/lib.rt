// No code: the text of a sheet, and the sheet that a text stands for.
#![tactic(auto)]
