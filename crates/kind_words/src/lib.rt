// The table form of a kind: definitions over plain numbers and lists that mirror the code of `lanes`, `blocks`,
// `node_words`, `symbol_kinds` and `kinds`, and the proof that they give the kinds of the model. No functions.
#![tactic(auto)]
