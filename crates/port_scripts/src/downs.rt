//! When devices go down.

ghost use Rattle.std.specs.Prelude.{◌≡◌, ◌∷◌, ◌++◌, ℕ, [], filter, IfOk, OnOk};
ghost use Rattle.run_parts.specs.Feeder.{is_after};
ghost use Rattle.port_scripts.specs.Downs.{AreDownsOf, lines_after};

use inspector_script::{Downs, Script};
use packet_entry::{Iter, NoMemory, Sequence};
use script_lines::Down;
use std::alloc::Global;
use std::collections::BTreeMap;
use std::marker::Model;

/// The `down` lines of a script by the frame after which they take effect, those of one frame in
/// the script's order.
pub type DownsByFrame = BTreeMap<u32, Downs>;

/// The `down` lines of a script by frame.
pub fn downs_by_frame(alloc: Global, script: &Script) -> Result<DownsByFrame, NoMemory>
    ensures { IfOk result (AreDownsOf script.now) }
{
    let mut by_frame = BTreeMap::new(alloc);
    for down in script.downs() {
        add(&mut by_frame, alloc, *down)?;
    }
    Ok(by_frame)
}

/// One line more.
fn add(by_frame: &mut DownsByFrame, alloc: Global, down: Down) -> Result<(), NoMemory>
    ensures { OnOk result ((number : ℕ) → lines_after by_frame.new number
        ≡ lines_after by_frame.old number ++ filter (is_after number) (down ∷ [])) }
{
    let downs = by_frame.entry(down.after)?.or_insert(Sequence::new(alloc));
    downs.push(down).map_err(|_| NoMemory)
}

/// The lines that take effect after the frame with this number, or before the first frame for 0.
pub fn lines_after<'a>(by_frame: &'a DownsByFrame, number: u32) -> LinesAfter<'a>
    ensures { result ≡ lines_after by_frame.now number }
{
    match by_frame.get(&number) {
        Some(downs) => LinesAfter {
            rest: Some(downs.iter()),
        },
        None => LinesAfter { rest: None },
    }
}

/// The `down` lines of a frame, lent in the script's order. Contracts see them as the lines still
/// to come.
#[derive(Drop)]
pub struct LinesAfter<'a> {
    /// `None` where no line stands by the frame's number.
    rest: Option<Iter<'a, Down>>,
}

impl<'a> Model for LinesAfter<'a> {
    ghost use Rattle.std.specs.Prelude.{[], List, unwrap_or};
    ghost use Rattle.script_lines.specs.declared.line.Down.{Down};

    ghost Value = { List Down };

    ghost view = { λ l. unwrap_or l.rest [] };
}

impl<'a> Iterator for LinesAfter<'a> {
    ghost use Rattle.std.specs.Iterator.{YieldsFirstRef, item_count};

    type Item = &'a Down;

    ghost next_gives = { YieldsFirstRef (λ rest. rest) };

    ghost remaining = { item_count (λ rest. rest) };

    fn next(&mut self) -> Option<&'a Down> {
        match &mut self.rest {
            Some(rest) => rest.next(),
            None => None,
        }
    }
}
