//! The reading of a whole script, line by line.

ghost use Rattle.std.specs.Prelude.{◌≡◌, ◌<◌, ◌-◌, ◌^◌, ℕ, [], Some, Ok, Err, IfOk, OnOk, length};
ghost use Rattle.std.specs.List.{list_any};
ghost use Rattle.script_lines.specs.declared.line.Line.TheVariants as line;
ghost use Rattle.script_lines.specs.Limits.{IsBlockLine, IsLine};
ghost use Rattle.inspector_script.specs.Grammar.{IsFirstRefused, IsScriptFile};
ghost use Rattle.inspector_script.specs.Scripts.{ScriptValue};
ghost use Rattle.text_lines.specs.Refusals.{Moves};
ghost use Rattle.inspector_script.specs.ScriptFile.{Answers, IsSound, after, inside};
ghost use Rattle.inspector_script.specs.ScriptFile.{is_port, line_leads_to, may_begin, place_of};
ghost use Rattle.inspector_script.specs.ScriptFile.{script_from, script_of, shut, start};

use crate::block::Block;
use crate::script::{Downs, Script};
use packet_entry::Sequence;
use script_lines::{BlockLine, Down, Line, lines_say_what_is_written, read_line};
use std::alloc::Global;
use text_lines::{LineFault, Stop, next_line};

/// The most `down` lines, of this reader.
const MAX_DOWNS: usize = 1_000;
/// The most ports, of this reader.
const MAX_PORTS: usize = 32;
/// How many notices a mailbox holds where no `mail` line says it.
const DEFAULT_MAIL: u32 = 1_024;
/// After how many frames each time the mailboxes are emptied where no `pace` line says it.
const DEFAULT_PACE: u32 = 1;
/// The key of the flow hash where no `hashkey` line says it.
const DEFAULT_KEY: u32 = 0;

/// The script that a file spells.
///
/// Unless memory runs out, `Bad` comes exactly where a line may not stand in its place, with the
/// first such line; and, with the number of lines plus 1, where all may but the file has no port.
/// `NoMemory` comes when out of memory. The lines are read one after the other, each once.
pub fn read_script(alloc: Global, bytes: &[u8]) -> Result<Script, LineFault>
    requires { length bytes.now < 2 ^ 32 - 1 }

    // What is read is in the grammar, and what is in the grammar is read, unless memory runs out.
    ensures found { IfOk result (IsScriptFile bytes.now) }
    ensures only { (s : ScriptValue) → IsScriptFile bytes.now s → Answers result (Ok s) }

    // What is refused is refused at the first line that may not stand, or at the one that is
    // missing at the end, and a file with such a line is refused there, unless memory runs out.
    ensures refused { (line : ℕ) → result ≡ Err (LineFault.Bad line) →
        IsFirstRefused bytes.now line }
    ensures stuck { (line : ℕ) → IsFirstRefused bytes.now line → Answers result (Err line) }

    // Both at once, as a function of the text.
    ensures exact { Answers result (script_of bytes.now) }
{
    lines_say_what_is_written();
    read_lines(alloc, bytes)
}

/// Reads line after line.
fn read_lines(alloc: Global, bytes: &[u8]) -> Result<Script, LineFault>
    requires { length bytes.now < 2 ^ 32 - 1 }
    ensures { Answers result (script_of bytes.now) }
{
    let mut reader = Reader::new(alloc);
    let mut rest = bytes;
    let mut line_number = 1;
    while let Some((line, later)) = next_line(rest) {
        if let Err(stop) = reader.read(alloc, line) {
            return Err(stop.at(line_number));
        }
        rest = later;
        line_number += 1;
    }
    reader.finish(line_number)
}

/// Where the reading of a script stands.
#[derive(Drop)]
struct Reader {
    mail: Option<u32>,
    pace: Option<u32>,
    key: Option<u32>,
    downs: Downs,
    /// The ports so far, the last block's too.
    ports: Vec<u32>,
    /// The blocks before the last one.
    blocks: Vec<Block>,
    /// The block of the last port.
    last: Option<Block>,
}

impl Reader {
    fn new(alloc: Global) -> Reader
        ensures { place_of result ≡ start }
    {
        Reader {
            mail: None,
            pace: None,
            key: None,
            downs: Sequence::new(alloc),
            ports: Vec::new(alloc),
            blocks: Vec::new(alloc),
            last: None,
        }
    }

    /// Goes on after this line.
    fn read(&mut self, alloc: Global, line: &[u8]) -> Result<(), Stop>
        requires sound { IsSound (place_of self.old) }
        ensures after { Moves result (line_leads_to (place_of self.old) line.now)
            (place_of self.new) }
        ensures sound { OnOk result (IsSound (place_of self.new)) }
    {
        match read_line(alloc, line)? {
            Some(line) => self.take(alloc, line),
            None => Err(Stop::Refused),
        }
    }

    /// Goes on after a line that says this.
    #[tactic(auto, unfolding(crate::specs::ScriptFile::after))]
    fn take(&mut self, alloc: Global, line: Line) -> Result<(), Stop>
        requires sound { IsSound (place_of self.old) }
        requires line { IsLine line }
        ensures after { Moves result (after (place_of self.old) line) (place_of self.new) }
        ensures sound { OnOk result (IsSound (place_of self.new)) }
    {
        match line {
            Line::Nothing => Ok(()),
            Line::Mail { mail } => self.mail(mail),
            Line::Pace { pace } => self.pace(pace),
            Line::Key { key } => self.key(key),
            Line::Down { down } => self.down(down),
            Line::Port { port } => self.port(alloc, port),
            Line::Inside { line } => self.inside(line),
        }
    }

    /// Sets the mailboxes' capacity. Refused behind the first port, and the second time.
    #[tactic(auto, unfolding(crate::specs::ScriptFile::after))]
    fn mail(&mut self, mail: u32) -> Result<(), Stop>
        requires sound { IsSound (place_of self.old) }
        requires line { IsLine (line.Mail mail) }
        ensures after { Moves result (after (place_of self.old) (line.Mail mail))
            (place_of self.new) }
        ensures sound { OnOk result (IsSound (place_of self.new)) }
    {
        if self.last.is_some() || self.mail.is_some() {
            return Err(Stop::Refused);
        }
        self.mail = Some(mail);
        Ok(())
    }

    /// Sets when the mailboxes are emptied. Refused as [`mail`](Reader::mail) is.
    #[tactic(auto, unfolding(crate::specs::ScriptFile::after))]
    fn pace(&mut self, pace: u32) -> Result<(), Stop>
        requires sound { IsSound (place_of self.old) }
        ensures after { Moves result (after (place_of self.old) (line.Pace pace))
            (place_of self.new) }
        ensures sound { OnOk result (IsSound (place_of self.new)) }
    {
        if self.last.is_some() || self.pace.is_some() {
            return Err(Stop::Refused);
        }
        self.pace = Some(pace);
        Ok(())
    }

    /// Sets the key of the flow hash. Refused as [`mail`](Reader::mail) is.
    #[tactic(auto, unfolding(crate::specs::ScriptFile::after))]
    fn key(&mut self, key: u32) -> Result<(), Stop>
        requires sound { IsSound (place_of self.old) }
        ensures after { Moves result (after (place_of self.old) (line.Key key))
            (place_of self.new) }
        ensures sound { OnOk result (IsSound (place_of self.new)) }
    {
        if self.last.is_some() || self.key.is_some() {
            return Err(Stop::Refused);
        }
        self.key = Some(key);
        Ok(())
    }

    /// Adds a device that goes down. Refused behind the first port, and where they are too many.
    #[tactic(auto, unfolding(crate::specs::ScriptFile::after))]
    fn down(&mut self, down: Down) -> Result<(), Stop>
        requires sound { IsSound (place_of self.old) }
        ensures after { Moves result (after (place_of self.old) (line.Down down))
            (place_of self.new) }
        ensures sound { OnOk result (IsSound (place_of self.new)) }
    {
        if self.last.is_some() || self.downs.len() >= MAX_DOWNS {
            return Err(Stop::Refused);
        }
        match self.downs.push(down) {
            Ok(()) => Ok(()),
            Err(_down) => Err(Stop::NoMemory),
        }
    }

    /// Begins the block of this port. Refused where the ports would be too many, and where it has a
    /// block.
    #[tactic(auto, unfolding(crate::specs::ScriptFile::after))]
    fn port(&mut self, alloc: Global, port: u32) -> Result<(), Stop>
        requires sound { IsSound (place_of self.old) }
        requires line { IsLine (line.Port port) }
        ensures after { Moves result (after (place_of self.old) (line.Port port))
            (place_of self.new) }
        ensures sound { OnOk result (IsSound (place_of self.new)) }
    {
        if !self.may_begin(port) {
            return Err(Stop::Refused);
        }
        self.shut()?;
        self.ports.push(port)?;
        self.last = Some(Block::new(alloc));
        Ok(())
    }

    fn may_begin(&self, port: u32) -> bool
        ensures { result ≡ may_begin (place_of self.now) port }
    {
        self.ports.len() < MAX_PORTS && !is_among(self.ports.as_slice(), port)
    }

    /// Puts the last block, if there is one, behind those before it.
    fn shut(&mut self) -> Result<(), Stop>
        ensures { Moves result (Some (shut (place_of self.old))) (place_of self.new) }
    {
        if let Some(block) = self.last.take() {
            self.blocks.push(block)?;
        }
        Ok(())
    }

    /// Goes on after a line of the last block. Refused where there is none.
    fn inside(&mut self, line: BlockLine) -> Result<(), Stop>
        requires sound { IsSound (place_of self.old) }
        requires line { IsBlockLine line }
        ensures after { Moves result (inside (place_of self.old) line) (place_of self.new) }
        ensures sound { OnOk result (IsSound (place_of self.new)) }
    {
        match &mut self.last {
            Some(block) => block.take(line),
            None => Err(Stop::Refused),
        }
    }

    /// The script of a file that ends here; `line_number` is the number of its lines plus 1.
    #[tactic(auto, unfolding(crate::specs::ScriptFile::script_from))]
    fn finish(self, line_number: u32) -> Result<Script, LineFault>
        requires { IsSound (place_of self) }
        ensures { Answers result (script_from line_number (place_of self) []) }
    {
        let Reader {
            mail,
            pace,
            key,
            downs,
            ports,
            mut blocks,
            last,
        } = self;
        let Some(block) = last else {
            return Err(LineFault::Bad { line: line_number });
        };
        match blocks.push(block) {
            Err(_failed) => Err(LineFault::NoMemory),
            Ok(()) => Ok(Script::new(
                mail.unwrap_or(DEFAULT_MAIL),
                pace.unwrap_or(DEFAULT_PACE),
                key.unwrap_or(DEFAULT_KEY),
                downs,
                ports,
                blocks,
            )),
        }
    }
}

fn is_among(ports: &[u32], port: u32) -> bool
    ensures { result ≡ list_any (is_port port) ports.now }
{
    ports.iter().any(|known| *known == port)
}
