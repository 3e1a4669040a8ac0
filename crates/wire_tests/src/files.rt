//! `host_io`: files of the machine in memory, and real files.

use host_io::{Failed, FileHost, Host, MemoryHost, WriteFault, read_whole, write_on, write_whole};
use std::alloc::Global;
use std::fs;
use std::test::Fail;
use test_inputs::{Row, add, bytes, content, debug, number};

/// One of a row's steps: `CALL NAME GIVEN`.
#[derive(Clone, Copy)]
struct Step<'a> {
    call: &'a str,
    name: &'a str,
    given: &'a str,
}

impl<'a> Step<'a> {
    fn of(text: &'a str) -> Step<'a> {
        let (call, rest) = text.trim().split_once(' ').unwrap_or((text, ""));
        let (name, given) = rest.split_once(' ').unwrap_or((rest, ""));
        Step { call, name, given }
    }
}

/// What a machine answers to a row's steps, printed, and what each file holds that was written or
/// is asked for.
pub fn machine(alloc: Global, row: &Row<'_>) -> Result<String, Fail> {
    let mut host = MemoryHost::new(alloc);
    let mut shown = String::new(alloc);
    for text in row.arguments.split(',') {
        let step = Step::of(text);
        match step.call {
            "put" => host.put(alloc, step.name, &bytes(alloc, step.given)?)?,
            "room" => host.room(alloc, step.name, number(step.given) as u64)?,
            "fail" => host.fail_call(number(step.name) as u64)?,
            "short" => host.short_call(number(step.name) as u64)?,
            _ => {
                let answer = match step.call {
                    "write_on" => debug(alloc, put_on(alloc, &mut host, step)?)?,
                    _ => done(alloc, &mut host, step)?,
                };
                add(&mut shown, answer.as_str())?;
                let held = match host.get(step.name) {
                    Some(bytes) => content(alloc, bytes)?,
                    None => debug(alloc, None::<u8>)?,
                };
                shown.push(' ')?;
                shown.push_str(held.as_str())?;
            }
        }
    }
    Ok(shown)
}

/// What the system answers to a row's steps, printed, and what each file holds that was written.
pub fn real(rt: &HostRuntime, alloc: Global, row: &Row<'_>) -> Result<String, Fail> {
    let mut host = FileHost::new(rt.clone()?);
    let mut shown = String::new(alloc);
    for text in row.arguments.split(',') {
        let step = Step::of(text);
        let answer = match step.call {
            "write" => debug(alloc, put_piece(alloc, &mut host, step)?)?,
            _ => done(alloc, &mut host, step)?,
        };
        add(&mut shown, answer.as_str())?;
        if step.call.starts_with("write") && !step.name.starts_with("/dev") {
            let held = match fs::read(rt, step.name) {
                Ok(bytes) => content(alloc, &bytes)?,
                Err(_) => debug(alloc, None::<u8>)?,
            };
            shown.push(' ')?;
            shown.push_str(held.as_str())?;
        }
    }
    Ok(shown)
}

/// Writes a text at a place of a file in memory, where that is its beginning or its end.
fn put_on(
    alloc: Global,
    host: &mut MemoryHost,
    step: Step<'_>,
) -> Result<Result<(), WriteFault>, Fail> {
    let (place, text) = step.given.split_once(' ').unwrap_or((step.given, ""));
    let at = number(place) as usize;
    let end = match host.get(step.name) {
        Some(bytes) => bytes.len(),
        None => 0,
    };
    if at != 0 && at != end {
        return Err(Fail::new("no such place"));
    }
    Ok(write_on(host, step.name, at as u64, &bytes(alloc, text)?))
}

/// Writes a piece at a place of a real file.
fn put_piece(
    alloc: Global,
    host: &mut FileHost<HostRuntime>,
    step: Step<'_>,
) -> Result<Result<usize, Failed>, Fail> {
    let (place, text) = step.given.split_once(' ').unwrap_or((step.given, ""));
    Ok(host.write(step.name, number(place) as u64, &bytes(alloc, text)?))
}

/// What a host answers to a call.
fn done<H: Host>(alloc: Global, host: &mut H, step: Step<'_>) -> Result<String, Fail> {
    let (name, given) = (step.name, step.given);
    let (first, rest) = given.split_once(' ').unwrap_or((given, ""));
    let at = number(first) as u64;
    let shown = match step.call {
        "read_whole" => match read_whole(alloc, host, name, at) {
            Ok(bytes) => content(alloc, &bytes)?,
            Err(stop) => debug(alloc, stop)?,
        },
        "write_whole" => debug(alloc, write_whole(host, name, &bytes(alloc, given)?))?,
        "read" => {
            let mut buffer = [0; 64];
            let room = (number(rest) as usize).min(64);
            match host.read(name, at, &mut buffer[..room]) {
                Ok(count) => content(alloc, buffer.get(..count).unwrap_or(&[]))?,
                Err(failed) => debug(alloc, failed)?,
            }
        }
        _ => debug(alloc, ())?,
    };
    Ok(shown)
}
