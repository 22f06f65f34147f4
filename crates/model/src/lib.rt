// Document 01 as definitions: what a reader must believe. It has no code: see specs/.
#![tactic(auto)]
