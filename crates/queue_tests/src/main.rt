//! Goes over the table of rows that standard input is: each names a call of a place, a queue or a
//! rules file, what it is given and the answer that is wanted. A row with another answer is printed
//! with it, and at the end how many rows there were.
#![tactic(auto)]

ghost use Rattle.place_history.specs.Calls.{IsOnly};

mod apart;
mod arrivals;
mod batches;
mod by_hand;
mod ledgers;
mod packets;
mod requests;
mod rules;
mod steps;

use place_history::Place;
use std::test::Fail;
use test_inputs::Row;

fn main(rt: HostRuntime) -> Result<(), Fail> {
    let mut place = packets::only(rt.alloc());
    let done = go_over(&rt, &mut place);
    packets::ended(place);
    done
}

/// Goes over the rows. A line that begins with `| ` is one of the rules file of the rows below it.
fn go_over(rt: &HostRuntime, place: &mut Place) -> Result<(), Fail>
    requires { IsOnly place.old }
    ensures { IsOnly place.new }
{
    let (mut rows, mut wrong) = (0u32, 0u32);
    let mut rules = Vec::new(rt.alloc());
    for line in rt.lines(rt.alloc()) {
        let line = line?;
        if let Some(rule) = line.strip_prefix("| ") {
            rules.extend_from_slice(rule.as_bytes())?;
            rules.push(b'\n')?;
        } else if let Some(row) = Row::of(line.as_str()) {
            rows = rows.saturating_add(1);
            let given = match rules::answer(rt.alloc(), &row, &mut rules)? {
                Some(given) => given,
                None => steps::answer(rt.alloc(), place, &row)?,
            };
            if given.as_str() != row.answer {
                wrong = wrong.saturating_add(1);
                println!(rt; "{line}\n    but {given}")?;
            }
        }
    }
    Ok(println!(rt; "{rows} rows, {wrong} of them with another answer")?)
}
