//! A desk between an inspector and the workers of its pool, who stay as long as it does. The
//! inspector lays notices on it; whoever is free takes one up and leaves what is asked for in
//! answer; and the inspector takes the answers in the order of the notices.
ghost use Rattle.std.specs.Prelude.{◌≡◌, ◌%◌, ◌<◌, ◌≤◌, length, None, All, IfOk, IfSome};
ghost use Rattle.std.specs.Thread.{IsSync};
ghost use Rattle.script_lines.specs.Limits.{IsAsk};
ghost use Rattle.inspector_pool.specs.Answers.{answers};
ghost use Rattle.inspector_pool.specs.Numbers.{most_notices, most_workers};
ghost use Rattle.inspector_pool.specs.Desks.{IsAnswerTo, IsFurnished, IsPort};

use crate::gate::JobGate;
use crate::lists::{AsksList, Notices};
use crate::sheet::{
    ANSWERED, AnsweringPort, BLANK, LAID, Sheet, Slot, TAKEN_UP, are_same, claimed, copied,
};
use counted_slot::Counted;
use inspector_script::{PortMachine, Script};
use nfqa_msgs::Notice;
use packet_entry::NoMemory;
use script_lines::Asks;
use std::alloc::Global;
use std::hint::spin_loop;
use std::snapshot::Snapshot;
use std::sync::Wait;
use std::sync::atomic::{AtomicU64, Ordering};
use std::thread::{self, Threads, yield_now};

/// How many slots a desk has: one for each notice of a batch.
const SLOTS: u64 = 64;

/// A worker that finds nothing looks so often, a few microseconds apart, before it sleeps: longer
/// than its inspector needs to send the answers of a batch.
const LOOKS: u32 = 200;

/// How often it spins between two looks.
const SPINS: u32 = 32;

/// The lower half of a word.
const LOWER: u64 = (1 << 32) - 1;

/// The desk of a port. What is counted on it says where work may be found, and no answer rests on
/// it.
#[derive(Drop)]
pub struct Desk<'a, J> {
    pub script: &'a Script,
    /// Which of the script's ports it is, counted from 0.
    pub place: u32,
    alloc: Global,
    jobs: &'a J,
    slots: Vec<Slot>,
    /// How many notices were laid on it. Workers sleep on this word.
    laid: AtomicU64,
    /// How many of them somebody went for.
    drawn: AtomicU64,
    /// How many workers sleep.
    asleep: AtomicU64,
    /// Not 0 once no notice comes any more.
    closed: AtomicU64,
    ghost furnished: { IsFurnished script.now place slots.items },
}

/// The slots of a desk, with nothing in them.
fn blank_slots(alloc: Global, port: &AnsweringPort) -> Result<Vec<Slot>, NoMemory>
    ensures room { IfOk result (λ slots. length slots.items ≡ most_notices) }
    ensures each { IfOk result (λ slots. All (λ p. p ≡ port.now) slots.items) }
{
    let mut slots = Vec::new(alloc);
    for _slot in 0..SLOTS {
        slots.push(Counted::new(None, port))?;
    }
    Ok(slots)
}

impl<'a, J: JobGate> Desk<'a, J> {
    /// The desk of the script's port at this place, counted from 0, with nothing on it. `jobs` is
    /// told of each job.
    pub fn new(
        alloc: Global,
        script: &'a Script,
        place: u32,
        jobs: &'a J,
    ) -> Result<Desk<'a, J>, NoMemory>
        requires has_port { place < length script.now.ports }
        ensures script { IfOk result (λ desk. desk.script.now ≡ script.now) }
        ensures place { IfOk result (λ desk. desk.place ≡ place) }
    {
        let port = AnsweringPort {
            script: Snapshot::of(script),
            place,
        };
        let slots = blank_slots(alloc, &port)?;
        Ok(Desk {
            script,
            place,
            alloc,
            jobs,
            slots,
            laid: AtomicU64::new(0),
            drawn: AtomicU64::new(0),
            asleep: AtomicU64::new(0),
            closed: AtomicU64::new(0),
        })
    }

    /// How many notices were laid on it: the number of the next one, counted from 0.
    pub fn laid(&self) -> u64 {
        self.laid.load(Ordering::SeqCst)
    }

    /// The slot of the notice with this number.
    fn slot_of(&self, number: u64) -> &Slot
        ensures { IsPort self.now.script.now self.now.place result.now }
    {
        &self.slots[(number % SLOTS) as usize]
    }

    /// Lays a copy of a notice on the desk, before which the port counted so many: job `job` of its
    /// batch. Where there is no memory for it, or its slot isn't free, it is missing there.
    pub fn lay(&self, counted: u32, job: u32, notice: &Notice) {
        let number = self.laid();
        if let Ok(notice) = copied(notice) {
            self.put(
                number,
                Sheet {
                    job,
                    counted,
                    notice,
                    answer: None,
                },
            );
        }
        self.laid.fetch_add(1, Ordering::SeqCst);
        // The inspector does one itself.
        let waiting = number.saturating_sub(self.drawn.load(Ordering::SeqCst));
        if waiting > 0 && self.asleep.load(Ordering::SeqCst) > 0 {
            self.laid.wake_one();
        }
    }

    /// Puts a sheet in its slot, if nothing lies there, or an answer that nobody wants any more.
    fn put(&self, number: u64, sheet: Sheet)
        requires { sheet.answer ≡ None }
    {
        let slot = self.slot_of(number);
        let word = if slot.load() == ANSWERED {
            ANSWERED
        } else {
            BLANK
        };
        if let Some(claim) = claimed(slot, word) {
            let _old = claim.put(Some(sheet), LAID);
        }
    }

    /// What is asked for in answer to this notice.
    fn work_out<R: Wait>(
        &self,
        rt: &R,
        job: u32,
        counted: u32,
        notice: &Notice,
    ) -> Result<Asks, NoMemory>
        ensures { IfOk result
            (IsAnswerTo self.now.script.now self.now.place counted notice.now) }
    {
        self.jobs.inside(rt, job);
        let number = counted.saturating_add(1);
        let machine = PortMachine::new(self.place);
        machine.answer_as(self.alloc, self.script, number, notice)
    }

    /// The number of a notice that was laid and that nobody went for.
    fn draw(&self) -> Option<u64> {
        for _look in 0..SLOTS {
            let next = self.drawn.load(Ordering::SeqCst);
            if next >= self.laid() {
                return None;
            }
            let drawn = self.drawn.compare_exchange(
                next,
                next.wrapping_add(1),
                Ordering::SeqCst,
                Ordering::SeqCst,
            );
            if drawn.is_ok() {
                return Some(next);
            }
        }
        None
    }

    /// Goes for one notice and works out what is asked for in answer, if it lies in its slot.
    /// Whether there was one to go for. Where memory runs out, the notice is gone from the desk.
    fn do_one<R: Wait>(&self, rt: &R) -> bool {
        let Some(number) = self.draw() else {
            return false;
        };
        let slot = self.slot_of(number);
        let Some(claim) = claimed(slot, LAID) else {
            return true;
        };
        let Some(sheet) = claim.put(None, TAKEN_UP) else {
            return true;
        };
        let (sheet, word) = match self.answered(rt, sheet) {
            Ok(sheet) => (Some(sheet), ANSWERED),
            Err(NoMemory) => (None, BLANK),
        };
        if let Some(claim) = claimed(slot, TAKEN_UP) {
            let _none = claim.put(sheet, word);
        }
        true
    }

    /// A notice with what is asked for in answer.
    fn answered<R: Wait>(&self, rt: &R, sheet: Sheet) -> Result<Sheet, NoMemory>
        ensures { IfOk result (λ done. IfSome done.answer
            (IsAnswerTo self.now.script.now self.now.place done.counted done.notice)) }
    {
        let Sheet {
            job,
            counted,
            notice,
            answer: _,
        } = sheet;
        let asks = self.work_out(rt, job, counted, &notice)?;
        Ok(Sheet {
            job,
            counted,
            notice,
            answer: Some(asks),
        })
    }

    /// Works until the desk is closed: takes up what is laid on it, and sleeps where nothing is.
    fn serve<R: Wait>(&self, rt: &R) {
        let mut looks = 0;
        for _ in rt.forever() {
            if self.do_one(rt) {
                looks = 0;
            } else if self.closed.load(Ordering::SeqCst) > 0 {
                return;
            } else if looks < LOOKS {
                looks += 1;
                pause();
            } else {
                looks = 0;
                self.sleep(rt);
            }
        }
        unreachable!()
    }

    /// So many workers serve at the desk, each in a thread of its own where threads can be started.
    pub fn staff<R: Threads + Wait + Sync>(&self, rt: &R, workers: u32)
        requires some { 0 < workers }
        requires few { workers ≤ most_workers }
    {
        let desk = self;
        let mut seats = [0u8; 16];
        thread::for_each_mut(
            rt,
            &mut seats[..workers as usize],
            workers as usize,
            &|_at: usize, _seat: &mut u8|
                requires { IsSync J.row × IsSync R.row }
            { desk.serve(rt) },
        );
    }

    /// Sleeps until one more notice is laid on the desk, or it is closed.
    fn sleep<R: Wait>(&self, rt: &R) {
        self.asleep.fetch_add(1, Ordering::SeqCst);
        let laid = self.laid();
        if self.drawn.load(Ordering::SeqCst) >= laid && self.closed.load(Ordering::SeqCst) == 0 {
            self.laid.park(rt, (laid & LOWER) as u32);
        }
        self.asleep.fetch_sub(1, Ordering::SeqCst);
    }

    /// Nothing is laid on it any more: all who serve at it end.
    pub fn close(&self) {
        self.closed.store(1, Ordering::SeqCst);
        // Who is about to sleep sees that the word has changed.
        self.laid.fetch_add(1, Ordering::SeqCst);
        self.laid.wake_all();
    }

    /// Takes what lies in a slot, if its word is this one: what is asked for in answer to this
    /// notice, if that lies there.
    fn take(&self, slot: &Slot, word: u64, counted: u32, notice: &Notice) -> Option<Asks>
        requires slot { IsPort self.now.script.now self.now.place slot.now }
        requires word { word % 4 ≡ 0 }
        ensures { IfSome result
            (IsAnswerTo self.now.script.now self.now.place counted notice.now) }
    {
        let claim = claimed(slot, word)?;
        let sheet = claim.put(None, BLANK)?;
        if sheet.counted == counted && are_same(&sheet.notice, notice) {
            sheet.answer
        } else {
            None
        }
    }

    /// What is asked for in answer to this notice, if somebody has taken it up from the slot with
    /// this number; until it is there, other work is done. Nothing of it is left on the desk.
    fn wait_for<R: Wait>(&self, rt: &R, number: u64, counted: u32, notice: &Notice) -> Option<Asks>
        ensures { IfSome result
            (IsAnswerTo self.now.script.now self.now.place counted notice.now) }
    {
        let slot = self.slot_of(number);
        for _ in rt.forever() {
            let word = slot.load();
            if word == BLANK {
                return None;
            }
            if word == LAID {
                return self.take(slot, LAID, counted, notice);
            }
            if word == ANSWERED {
                return self.take(slot, ANSWERED, counted, notice);
            }
            if !self.do_one(rt) {
                pause();
            }
        }
        unreachable!()
    }

    /// What is asked for in answer to this notice, from the desk if it is left there, and else
    /// worked out here.
    fn answer<R: Wait>(
        &self,
        rt: &R,
        number: u64,
        job: u32,
        counted: u32,
        notice: &Notice,
    ) -> Result<Asks, NoMemory>
        ensures { IfOk result
            (IsAnswerTo self.now.script.now self.now.place counted notice.now) }
    {
        match self.wait_for(rt, number, counted, notice) {
            Some(asks) => Ok(asks),
            None => self.work_out(rt, job, counted, notice),
        }
    }

    /// The answers to these notices, before which the port counted so many. They were laid on the
    /// desk with the numbers from this one on, as the jobs 1, 2 and so on.
    pub fn answers<R: Wait>(
        &self,
        rt: &R,
        first: u64,
        counted: u32,
        notices: &Notices,
    ) -> Result<AsksList, NoMemory>
        requires few { length notices.now ≤ most_notices }
        ensures answers { IfOk result (λ r.
            r ≡ answers self.now.script.now self.now.place counted notices.now) }
        ensures fit { IfOk result (All (All IsAsk)) }
    {
        let mut given = Vec::new(self.alloc);
        for at in 0..notices.len() {
            let Some(notice) = notices.get(at) else {
                unreachable!()
            };
            let before = counted.saturating_add(at as u32);
            let number = first.wrapping_add(at as u64);
            let job = (at as u32).wrapping_add(1);
            let asks = self.answer(rt, number, job, before, notice)?;
            given.push(asks)?;
        }
        Ok(AsksList::from_vec(given))
    }
}

/// A short pause between two looks.
fn pause() {
    for _ in 0..SPINS {
        spin_loop();
    }
    yield_now();
}
