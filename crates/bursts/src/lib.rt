// Several register writes in one call: definitions, the call's promise and what is proved of it. `access` has the code.
#![tactic(auto)]
