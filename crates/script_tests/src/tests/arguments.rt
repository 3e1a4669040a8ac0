//! Arguments that are a command, told again word by word, and arguments that aren't.

use command_line::{
    Audit, Command, Generation, Inputs, Listing, Live, Migration, Play, RunSize, Sample,
    command_of, live_of,
};
use std::alloc::{AllocError, Global};
use std::test::Fail;

/// Arguments with blanks between, and the command that they are.
const ROWS: &str = "\
play r s c o l j => play r s c o l j
list r s c r => list r s c r
gen 0 200000 r s c => gen 0 200000 r s c
trial 18446744073709551615 1 => trial 18446744073709551615 1
migrate j j => migrate j j
audit r s c j => audit r s c j
live r s c o l j 1 => live r s c o l j 1 1 1
live r s c o l j 2 3 => live r s c o l j 2 3 1
live r s c o l j 64 16 16 => live r s c o l j 64 16 16
play r s c o o j => none
play r s c o l => none
play r s c o l - => none
play  s c o l j => none
list r s c o l j => none
list r s c - => none
gen 7 1 r s s => none
gen 7 0 r s c => none
gen x 1 r s c => none
trial 7 0 => none
trial 7 200001 => none
trial 7 4294967297 => none
trial 7 01 => none
trial +7 1 => none
trial  1 => none
trial 18446744073709551616 1 => none
trial 7 => none
migrate o - => none
migrate o n m => none
audit r s c - => none
live r s c o l j 0 => none
live r s c o l j 65 => none
live r s c o l j 257 => none
live r s c o l j 1 0 => none
live r s c o l j 1 17 => none
live r s c o l j 1  => none
live r s c o l j 1 1 0 => none
live r s c o l j 1 1 17 => none
live r s c o l j 1 1 1 1 => none
live r s c o l j => none
live r s c o l o 1 => none
live => none
 => none";

/// The names of the inputs.
fn inputs_told(alloc: Global, inputs: &Inputs<'_>) -> Result<String, AllocError> {
    let Inputs {
        rules,
        script,
        capture,
    } = inputs;
    format!(in alloc; "{rules} {script} {capture}")
}

/// The names of a run's files.
fn files_told(alloc: Global, files: &Play<'_>) -> Result<String, AllocError> {
    let inputs = inputs_told(alloc, &files.inputs)?;
    let Play {
        output,
        ledger,
        journal,
        ..
    } = files;
    format!(in alloc; "{inputs} {output} {ledger} {journal}")
}

/// A command, word by word.
fn command_told(alloc: Global, command: &Command<'_>) -> Result<String, AllocError> {
    match command {
        Command::Play { files } => {
            let files = files_told(alloc, files)?;
            format!(in alloc; "play {files}")
        }
        Command::List {
            files: Listing { inputs, output },
        } => {
            let inputs = inputs_told(alloc, inputs)?;
            format!(in alloc; "list {inputs} {output}")
        }
        Command::Gen {
            files: Generation {
                sample: Sample { number, count },
                files,
            },
        } => {
            let files = inputs_told(alloc, files)?;
            format!(in alloc; "gen {number} {count} {files}")
        }
        Command::Trial {
            sample: Sample { number, count },
        } => format!(in alloc; "trial {number} {count}"),
        Command::Migrate {
            files: Migration { source, target },
        } => format!(in alloc; "migrate {source} {target}"),
        Command::Audit {
            files: Audit { inputs, journal },
        } => {
            let inputs = inputs_told(alloc, inputs)?;
            format!(in alloc; "audit {inputs} {journal}")
        }
    }
}

/// A run with threads, with its size.
fn live_told(alloc: Global, live: &Live<'_>) -> Result<String, AllocError> {
    let files = files_told(alloc, &live.files)?;
    let RunSize {
        places,
        feeders,
        workers,
    } = &live.size;
    format!(in alloc; "live {files} {places} {feeders} {workers}")
}

/// What these arguments are.
fn told(alloc: Global, row: &str) -> Result<String, AllocError> {
    let mut words = Vec::new(alloc);
    if !row.is_empty() {
        for word in row.split(' ') {
            words.push(String::from_str(alloc, word)?)?;
        }
    }
    match (command_of(&words), live_of(&words)) {
        (Some(command), None) => command_told(alloc, &command),
        (None, Some(live)) => live_told(alloc, &live),
        _ => String::from_str(alloc, "none"),
    }
}

#[test]
fn commands_are_told_from_their_words(rt: HostRuntime) -> Result<(), Fail> {
    for row in ROWS.lines() {
        let (arguments, wanted) = row.split_once(" => ").ok_or("a row without an arrow")?;
        let told = told(rt.alloc(), arguments)?;
        assert_eq!(rt; told.as_str(), wanted, "{arguments}");
    }
    Ok(())
}
