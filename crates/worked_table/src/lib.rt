// Document 01's worked contracts, as one table that the checker computes. It has no code: see specs/.
#![tactic(auto)]
