// The starred cases of docs/RULES.md, as one table that is proved of the definitions. It has no code.
#![tactic(auto)]
