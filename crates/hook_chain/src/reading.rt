//! The reading of a whole rules file, line by line.

ghost use Rattle.std.specs.Prelude.{ℕ, List, Any, true, false, is_some, Some, ◌≡◌, ◌≢◌, IfOk, IsOk};
ghost use Rattle.std.specs.Prelude.{[], ◌+◌, ◌-◌, ◌^◌, ◌<◌, length, bytes_eq};
ghost use Rattle.std.specs.Str.Lines.{lines};
ghost use Rattle.std.specs.List.{list_any};
ghost use Rattle.hook_chain.specs.Rules.{AreRuleTables, AreTables, RuleTables, for_one_feeder};
ghost use Rattle.hook_chain.specs.Rules.{with_one_feeder};
ghost use Rattle.hook_chain.specs.Grammar.{BeginsTable, IsFirstRefused, IsRulesFile};
ghost use Rattle.hook_chain.specs.declared.rule.Rule.{Rule};
ghost use Rattle.hook_chain.specs.Line.{Adds, Closes, Opens, Policy, said, says};
ghost use Rattle.hook_chain.specs.RulesFile.{Answers, after, line_leads_to, may_open, start};
ghost use Rattle.hook_chain.specs.RulesFile.{rules_of, tables_from, tables_of};
ghost use Rattle.hook_chain.specs.Reading.{IsSound, Moves, opens_table, place_of, takes_memory};

use crate::line::{Line, read_line};
use crate::rule::Rule;
use crate::tables::{Table, TableList, Tables};
use std::alloc::Global;
use text_lines::{LineFault, Stop, is_word, next_line};

/// The most tables of a rules file, of this reader.
const MAX_TABLES: usize = 16;
/// The most rules of a table, of this reader.
const MAX_RULES: usize = 1_000;

/// The tables of a rules file as iptables-save(8) writes it, reduced to the FORWARD chain, the
/// target NFQUEUE and the matches of protocol and mark.
///
/// Unless memory runs out, `Bad` comes exactly where a line may not stand in its place, with the
/// first such line; and, with the number of lines plus 1, where all may but the file ends inside a
/// table. `NoMemory` comes when out of memory, which is taken only from the first line on that
/// begins a table. The lines are read one after the other, each once.
pub fn read_tables(alloc: Global, bytes: &[u8]) -> Result<Tables, LineFault>
    requires { length bytes.now < 2 ^ 32 - 1 }

    // What is read is in the grammar, and what is in the grammar is read, unless memory runs out.
    ensures found { IfOk result (IsRulesFile bytes.now) }
    ensures only { (tables : RuleTables) → IsRulesFile bytes.now tables →
        Answers result (Ok tables) }

    // What is refused is refused at the first line that may not stand, or at the one that is
    // missing at the end, and a file with such a line is refused there, unless memory runs out.
    ensures refused { (line : ℕ) → result ≡ Err (LineFault.Bad line) →
        IsFirstRefused bytes.now line }
    ensures stuck { (line : ℕ) → IsFirstRefused bytes.now line → Answers result (Err line) }

    // Memory is taken from the first table on: a file without tables is always read.
    ensures memory { result ≡ Err LineFault.NoMemory → Any BeginsTable (lines bytes.now) }
    ensures without_tables { IsRulesFile bytes.now (with_one_feeder []) → IsOk result }

    // Both at once, as a function of the text.
    ensures exact { Answers result (tables_of bytes.now) }
    ensures bounds { IfOk result AreRuleTables }
{
    for_one_feeder(read_lines(alloc, bytes))
}

/// What was read of a file, which says nothing of feeders.
fn for_one_feeder(read: Result<TableList, LineFault>) -> Result<Tables, LineFault>
    requires { IfOk read AreTables }
    ensures read { result ≡ for_one_feeder read }
    ensures bounds { IfOk result AreRuleTables }
{
    match read {
        Ok(list) => Ok(Tables::of_list(list)),
        Err(fault) => Err(fault),
    }
}

/// Reads line after line.
fn read_lines(alloc: Global, bytes: &[u8]) -> Result<TableList, LineFault>
    requires { length bytes.now < 2 ^ 32 - 1 }
    ensures exact { Answers result (rules_of bytes.now) }
    ensures memory { result ≡ Err LineFault.NoMemory →
        list_any opens_table (lines bytes.now) ≡ true }
    ensures bounds { IfOk result AreTables }
{
    let mut reader = Reader::new(alloc);
    let mut rest = bytes;
    let mut line_number = 1;
    while let Some((line, later)) = next_line(rest) {
        if let Err(stop) = reader.read(alloc, line) {
            return Err(stop.at(line_number));
        }
        rest = later;
        line_number += 1;
    }
    reader.finish(line_number)
}

/// Where the reading of a rules file stands.
#[derive(Drop)]
struct Reader<'a> {
    /// The names of the tables that were opened.
    names: Vec<&'a [u8]>,
    /// The tables that were closed.
    closed: Vec<Table>,
    /// The open table.
    inside: Option<Table>,
}

impl<'a> Reader<'a> {
    fn new(alloc: Global) -> Reader<'a>
        ensures { place_of result ≡ start }
    {
        Reader {
            names: Vec::new(alloc),
            closed: Vec::new(alloc),
            inside: None,
        }
    }

    /// Goes on after this line. Memory is taken at most where it begins a table and inside of one.
    fn read(&mut self, alloc: Global, line: &'a [u8]) -> Result<(), Stop>
        ensures { Moves (takes_memory (place_of self.old) (says line.now)) result
            (line_leads_to (place_of self.old) line.now) (place_of self.new) }
    {
        match read_line(line) {
            Some(line) => self.take(alloc, line),
            None => Err(Stop::Refused),
        }
    }

    /// The tables of a file that ends here; `line_number` is the number of its lines plus 1.
    #[tactic(auto, unfolding(crate::specs::RulesFile::tables_from))]
    fn finish(self, line_number: u32) -> Result<TableList, LineFault>
        requires { IsSound (place_of self) }
        ensures exact { Answers result (tables_from line_number (place_of self.entry) []) }
        ensures memory { result ≢ Err LineFault.NoMemory }
    {
        let Reader {
            names: _names,
            closed,
            inside,
        } = self;
        match inside {
            None => Ok(TableList::from_vec(closed)),
            Some(_table) => Err(LineFault::Bad { line: line_number }),
        }
    }

    /// Goes on after a line that says this.
    #[tactic(auto, unfolding(crate::specs::RulesFile::after))]
    fn take(&mut self, alloc: Global, line: Line<'a>) -> Result<(), Stop>
        ensures { Moves (takes_memory (place_of self.old) (Some (said line.entry))) result
            (after (place_of self.old) (said line.entry)) (place_of self.new) }
    {
        match line {
            Line::Nothing => Ok(()),
            Line::Opens { name } => self.open(alloc, name),
            Line::Policy => self.policy(),
            Line::Adds { rule } => self.add(rule),
            Line::Closes => self.close(),
        }
    }

    /// Begins a table of this name. Refused inside of a table, where the tables would be too many,
    /// and where the name was used before.
    #[tactic(auto, unfolding(crate::specs::RulesFile::after))]
    fn open(&mut self, alloc: Global, name: &'a [u8]) -> Result<(), Stop>
        ensures { Moves true result (after (place_of self.old) (Opens name.now))
            (place_of self.new) }
    {
        if !self.may_open(name) {
            return Err(Stop::Refused);
        }
        self.names.push(name)?;
        self.inside = Some(Table::new(alloc));
        Ok(())
    }

    fn may_open(&self, name: &[u8]) -> bool
        ensures { result ≡ may_open (place_of self.now) name.now }
    {
        self.inside.is_none() && self.closed.len() < MAX_TABLES && !self.is_known(name)
    }

    fn is_known(&self, name: &[u8]) -> bool
        ensures { result ≡ list_any (λ known. bytes_eq known name.now) (place_of self.now).names }
    {
        is_among(self.names.as_slice(), name)
    }

    /// Goes on after a chain's policy, which has no effect. Refused outside of tables.
    #[tactic(auto, unfolding(crate::specs::RulesFile::after))]
    fn policy(&mut self) -> Result<(), Stop>
        ensures { Moves false result (after (place_of self.old) Policy) (place_of self.new) }
    {
        if self.inside.is_none() {
            return Err(Stop::Refused);
        }
        Ok(())
    }

    /// Adds a rule to the open table. Refused outside of tables, and where the table is full.
    #[tactic(auto, unfolding(crate::specs::RulesFile::after))]
    fn add(&mut self, rule: Rule) -> Result<(), Stop>
        ensures { Moves (is_some (place_of self.old).inside) result
            (after (place_of self.old) (Adds rule)) (place_of self.new) }
    {
        match &mut self.inside {
            Some(table) if table.len() < MAX_RULES => {
                table.push(rule)?;
                Ok(())
            }
            _ => Err(Stop::Refused),
        }
    }

    /// Ends the open table. Refused outside of tables.
    #[tactic(auto, unfolding(crate::specs::RulesFile::after))]
    fn close(&mut self) -> Result<(), Stop>
        ensures { Moves (is_some (place_of self.old).inside) result
            (after (place_of self.old) Closes) (place_of self.new) }
    {
        let Some(table) = self.inside.take() else {
            return Err(Stop::Refused);
        };
        self.closed.push(table)?;
        Ok(())
    }
}

fn is_among(names: &[&[u8]], name: &[u8]) -> bool
    ensures { result ≡ list_any (λ known. bytes_eq known.now name.now) names.now }
{
    names.iter().any(|known| is_word(known, name))
}
