// The listing: its lines as bytes, and what writing them to a lent buffer means. No code; `lines` has it.
#![tactic(auto)]
