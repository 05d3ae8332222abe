// No code: the paper's starred cases as rows of one table, each with its whole answer.
#![tactic(auto)]
