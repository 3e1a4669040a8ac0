//! The tables of a rules file.

ghost use Rattle.std.specs.Prelude.{◌≡◌, ◌≤◌, length, [], ◌∷◌, ◌++◌, OnOk};
ghost use Rattle.hook_chain.specs.Numbers.{most_feeders};
ghost use Rattle.hook_chain.specs.Rules.{AreTables, with_one_feeder};

use crate::rule::Rule;
use std::alloc::{AllocError, Global};
use std::marker::Model;

/// The rules of one table, in their order.
#[derive(Drop)]
pub(crate) struct Table {
    rules: Vec<Rule>,
}

impl Model for Table {
    ghost use Rattle.std.specs.Prelude.{List};
    ghost use Rattle.hook_chain.specs.declared.rule.Rule.{Rule};

    ghost Value = { List Rule };

    ghost view = { λ t. t.rules.items };
}

impl Table {
    pub(crate) fn new(alloc: Global) -> Table
        ensures { result ≡ [] }
    {
        Table {
            rules: Vec::new(alloc),
        }
    }

    pub(crate) fn len(&self) -> usize
        ensures { result ≡ length self.now }
    {
        self.rules.len()
    }

    pub(crate) fn push(&mut self, rule: Rule) -> Result<(), AllocError>
        ensures { OnOk result (self.new ≡ self.old ++ rule ∷ []) }
    {
        self.rules.push(rule)?;
        Ok(())
    }

    pub(crate) fn rules(&self) -> &[Rule]
        ensures { result.now ≡ self.now }
    {
        self.rules.as_slice()
    }
}

/// The tables of a rules file, in their order.
#[derive(Drop)]
pub(crate) struct TableList {
    tables: Vec<Table>,
}

impl Model for TableList {
    ghost use Rattle.std.specs.Prelude.{List};
    ghost use Rattle.hook_chain.specs.declared.rule.Rule.{Rule};
    ghost use Rattle.hook_chain.specs.Rules.{AreTables};

    ghost Value = { List (List Rule) };

    ghost view = { λ t. t.tables.items };

    ghost invariant = { λ t. AreTables t.tables.items };
}

impl TableList {
    /// The tables of a whole file.
    pub(crate) fn from_vec(tables: Vec<Table>) -> TableList
        requires { AreTables tables.items }
        ensures { result ≡ tables.items }
    {
        TableList { tables }
    }

    fn as_slice(&self) -> &[Table]
        ensures value { result.now ≡ self.now }
        ensures bounds { AreTables self.now }
    {
        self.tables.as_slice()
    }
}

/// The tables of a rules file, in their order, the first of which has number 1, and how many
/// feeders take turns at feeding the packets, 1 where nothing else is said.
#[derive(Drop)]
pub struct Tables {
    list: TableList,
    feeders: u32,
}

impl Model for Tables {
    ghost use Rattle.hook_chain.specs.Rules.{AreRuleTables, RuleTables};

    ghost Value = { RuleTables };

    ghost view = { λ t. record { rules = t.list; feeders = t.feeders } };

    ghost invariant = { λ t. AreRuleTables (record { rules = t.list; feeders = t.feeders }) };
}

impl Tables {
    /// With one feeder.
    pub(crate) fn of_list(list: TableList) -> Tables
        requires { AreTables list }
        ensures { result ≡ with_one_feeder list }
    {
        Tables { list, feeders: 1 }
    }

    /// The same tables with this many feeders.
    pub fn with_feeders(self, feeders: u32) -> Tables
        requires { (1 ≤ feeders) × (feeders ≤ most_feeders) }
        ensures { result ≡ record self { feeders = feeders } }
    {
        Tables { feeders, ..self }
    }

    pub(crate) fn feeders(&self) -> u32
        ensures value { result ≡ self.now.feeders }
        ensures some { 1 ≤ result }
    {
        self.feeders
    }

    pub(crate) fn as_slice(&self) -> &[Table]
        ensures value { result.now ≡ self.now.rules }
        ensures bounds { AreTables self.now.rules }
    {
        self.list.as_slice()
    }
}
