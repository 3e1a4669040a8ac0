//! Laws of rules files, each the contract of a function that does nothing. With the contract of
//! `read_tables`, which speaks of the same definitions, they are laws of the reading.

ghost use Rattle.std.specs.Prelude.{◌≡◌, ◌+◌, ◌<◌, ◌≤◌, ℕ, List, ◌⊎◌};
ghost use Rattle.hook_chain.specs.Balance.{fanned_out};
ghost use Rattle.hook_chain.specs.Rules.{RuleTables};
ghost use Rattle.hook_chain.specs.Grammar.{IsFirstRefused, IsRulesFile};

/// A text is the rules file of one list of tables at most.
pub fn one_value()
    ensures { (text : List ℕ) (a b : RuleTables) → IsRulesFile text a → IsRulesFile text b →
        a ≡ b }
{}

/// A text has one first refused line at most.
pub fn one_refused_line()
    ensures { (text : List ℕ) (a b : ℕ) → IsFirstRefused text a → IsFirstRefused text b → a ≡ b }
{}

/// A text is a rules file or has a first refused line, and never both.
pub fn value_or_refused_line()
    ensures one { (text : List ℕ) →
        ((tables : RuleTables) × IsRulesFile text tables)
        ⊎ ((line : ℕ) × IsFirstRefused text line) }
    ensures never_both { (text : List ℕ) (tables : RuleTables) (line : ℕ) →
        IsRulesFile text tables → IsFirstRefused text line → ⊥ }
{}

/// With one feeder the fan-out takes the first queue; with any number it takes one of these queues.
pub fn fanout_takes_one_of_the_queues()
    ensures first { (number first total : ℕ) → fanned_out 1 number first total ≡ first }
    ensures among { (feeders number first total : ℕ) → 1 ≤ feeders → 1 ≤ total →
        (first ≤ fanned_out feeders number first total)
        × (fanned_out feeders number first total < first + total) }
{}
