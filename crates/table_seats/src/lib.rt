//! What holds of the seats of a table, or of whatever else is numbered and changes as seats do: of
//! each of them, and of sums over all, as one changes, a new one comes or one takes another in.
//! These are definitions and lemmas on lists: no code runs here, and nothing is known of a rule.
#![tactic(auto)]
