//! Mailboxes that are emptied, round by round.

ghost use Rattle.std.specs.Prelude.{◌≡◌, ◌<◌, ◌||◌, ℕ, suc, Bool, length, IfOk, OnOk, true};
ghost use Rattle.solo_schedule.specs.Schedule.{Looked, emptied_in, go_on_while, looked};
ghost use Rattle.solo_run.specs.RunState.{Goes, IsWith, Keeps, is_open_at, port_at, setting_of};
ghost use Rattle.solo_run.specs.RunState.{world_of};

use crate::between::{Between, Nothing};
use crate::run::Run;
use crate::sending::do_all;
use inspector_script::Script;
use packet_entry::NoMemory;
use port_scripts::ports_close_at_the_end;
use std::alloc::Global;

/// A port that is open looks into its mailbox: its first notice is received and answered. Whether
/// there was one.
fn look(run: &mut Run, alloc: Global, script: &Script, place: u32) -> Result<bool, NoMemory>
    requires going { Goes script.now run.old }
    requires place { place < length script.now.ports }
    ensures going { OnOk result (Goes script.now run.new) }
    ensures made_with { OnOk result (IsWith run.old run.new) }
    ensures looked { IfOk result (λ found. (before : Bool) →
        looked (setting_of run.old) script.now place (port_at script.now place)
        (record { world = world_of run.old; found = before })
        ≡ record { world = world_of run.new; found = found || before }) }
    ensures keeps { OnOk result (Keeps (world_of run.old) (world_of run.new)) }
{
    // Mostly a mailbox is empty.
    if !run.has_notice(script, place) {
        return Ok(false);
    }
    if !run.is_open(script, place) {
        return Ok(false);
    }
    answer(run, alloc, script, place)
}

/// The first notice of a port that is open is received and answered. Whether there was one.
fn answer(run: &mut Run, alloc: Global, script: &Script, place: u32) -> Result<bool, NoMemory>
    requires going { Goes script.now run.old }
    requires place { place < length script.now.ports }
    requires open { is_open_at script.now (world_of run.old) place ≡ true }
    ensures going { OnOk result (Goes script.now run.new) }
    ensures made_with { OnOk result (IsWith run.old run.new) }
    ensures looked { IfOk result (λ found. (before : Bool) →
        looked (setting_of run.old) script.now place (port_at script.now place)
        (record { world = world_of run.old; found = before })
        ≡ record { world = world_of run.new; found = found || before }) }
    ensures keeps { OnOk result (Keeps (world_of run.old) (world_of run.new)) }
{
    ports_close_at_the_end();
    match run.receive(alloc, script, place)? {
        Some(asks) => {
            do_all(run, alloc, script, place, asks, &Nothing)?;
            Ok(true)
        }
        None => Ok(false),
    }
}

/// Each port looks once, in the script's order. Whether another round may find something: there
/// was a notice, and there is one.
fn round(run: &mut Run, alloc: Global, script: &Script) -> Result<bool, NoMemory>
    requires going { Goes script.now run.old }
    ensures going { OnOk result (Goes script.now run.new) }
    ensures made_with { OnOk result (IsWith run.old run.new) }
    ensures emptied { IfOk result (λ more. (rounds : ℕ) →
        emptied_in (suc rounds) (setting_of run.old) script.now (world_of run.old)
        ≡ go_on_while (emptied_in rounds (setting_of run.old) script.now)
        (record { world = world_of run.new; found = more })) }
    ensures keeps { OnOk result (Keeps (world_of run.old) (world_of run.new)) }
{
    let mut found = false;
    for place in 0..script.ports().len() {
        let here = look(run, alloc, script, place as u32)?;
        // Mostly this notice was the only one.
        if here && run.plane.is_quiet() {
            return Ok(false);
        }
        found = here | found;
    }
    Ok(found)
}

/// Rounds are made until one finds nothing, but no more than so many.
pub(crate) fn empty(
    run: &mut Run,
    alloc: Global,
    script: &Script,
    rounds: u32,
) -> Result<(), NoMemory>
    requires going { Goes script.now run.old }
    ensures going { OnOk result (Goes script.now run.new) }
    ensures made_with { OnOk result (IsWith run.old run.new) }
    ensures emptied { OnOk result (world_of run.new
        ≡ emptied_in rounds (setting_of run.old) script.now (world_of run.old)) }
    ensures keeps { OnOk result (Keeps (world_of run.old) (world_of run.new)) }
{
    for _round in 0..rounds {
        if !round(run, alloc, script)? {
            return Ok(());
        }
    }
    Ok(())
}

/// The mailboxes are emptied.
#[derive(Debug, Drop)]
pub(crate) struct Emptied {
    /// In how many rounds at most.
    pub(crate) rounds: u32,
}

impl Between for Emptied {
    ghost then = { λ emptied s script w. emptied_in emptied.rounds s script w };

    fn go(&self, run: &mut Run, alloc: Global, script: &Script) -> Result<(), NoMemory> {
        empty(run, alloc, script, self.rounds)
    }
}
