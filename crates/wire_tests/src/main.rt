//! Goes over the table of rows that standard input is: each names a call, what it is given and the
//! answer that is wanted. A row with another answer is printed with it, and at the end how many
//! rows there were.
#![tactic(auto)]

mod files;
mod frames;
mod messages;
mod notices;
mod packets;
mod texts;

use std::alloc::Global;
use std::io;
use std::test::Fail;
use test_inputs::Row;

fn main(rt: HostRuntime) -> Result<(), Fail> {
    let (mut rows, mut wrong) = (0u32, 0u32);
    for line in rt.lines(rt.alloc()) {
        let line = line?;
        let Some(row) = Row::of(line.as_str()) else {
            continue;
        };
        rows = rows.saturating_add(1);
        let given = match row.call {
            "file" => files::real(&rt, rt.alloc(), &row)?,
            "machine" => files::machine(rt.alloc(), &row)?,
            _ => answer(rt.alloc(), &row)?,
        };
        if given.as_str() != row.answer {
            wrong = wrong.saturating_add(1);
            println!(rt; "{line}\n    but {given}")?;
        }
    }
    Ok(println!(rt; "{rows} rows, {wrong} of them with another answer")?)
}

/// What a call answers, printed.
fn answer(alloc: Global, row: &Row<'_>) -> Result<String, Fail> {
    for of_a_crate in [0u8, 1, 2, 3, 4] {
        let given = match of_a_crate {
            0 => texts::answer(alloc, row)?,
            1 => frames::answer(alloc, row)?,
            2 => messages::answer(alloc, row)?,
            3 => notices::answer(alloc, row)?,
            _ => packets::answer(alloc, row)?,
        };
        if let Some(given) = given {
            return Ok(given);
        }
    }
    Ok(format!(in alloc; "no such call")?)
}
