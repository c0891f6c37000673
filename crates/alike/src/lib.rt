// That two states which differ in representation alone are the same to every call: definitions and their law, no code.
#![tactic(auto)]
