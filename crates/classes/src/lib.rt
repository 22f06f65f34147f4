// Classes of rows: what a symbol can see of its children's kinds, and why one row of each class is enough. It has no code: see specs/.
#![tactic(auto)]
