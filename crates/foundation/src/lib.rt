// The mathematics that every other crate cites: tests, searches and words. It has no code: see specs/.
#![tactic(auto)]
