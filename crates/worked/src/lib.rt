// No code: the worked examples of document 01, proved of the definitions in specs/Worked.antt.
#![tactic(auto)]
