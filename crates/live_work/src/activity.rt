//! Who is at work in a run. Only how long threads pause depends on it: no clause speaks of it.

use crate::feeding::CROWD;
use std::sync::Wait;
use std::sync::atomic::{AtomicU64, Ordering};
use std::time::Duration;

/// So many dozes in a row, each of a millisecond after the first few, an inspector waits for
/// feeders that haven't begun: some 250 ms. Where no thread can be made they begin when all
/// inspectors have ended.
const MAX_DOZES: u32 = 250;

/// How long a feeder that holds back naps, in microseconds.
const NAP: u64 = 50;

/// How often it naps at most before a frame, so that slower feeders catch up.
const MAX_NAPS: u32 = 64;

/// So many frames a feeder may be ahead of the slowest.
const MAX_AHEAD: u64 = 64;

/// After so many frames each a feeder says how far it is, and may wake inspectors.
const STRIDE: u64 = 16;

/// How far a feeder is that isn't at work: nobody waits for it.
const AWAY: u64 = u64::MAX;

/// The lower half of a word.
const LOWER: u64 = (1 << 32) - 1;

/// One in its upper half.
const UPPER_ONE: u64 = 1 << 32;

/// Who is at work in a run, how far the feeders are, and a bell that wakes inspectors who doze.
/// Each run has one of its own.
#[derive(Drop)]
pub struct Activity {
    feeders: u64,
    /// How many waiting packets may fill half of a mailbox: then whoever dozes is woken.
    many: u64,
    /// How many feeders have begun, or aren't waited for any more.
    begun: AtomicU64,
    /// How many feeders are at work, and inspectors awake.
    at_work: AtomicU64,
    /// In the upper half how many inspectors have come, in the lower how many of them are there.
    inspectors: AtomicU64,
    /// In the lower half how often the bell rang, in the upper how many inspectors have found
    /// nothing since then.
    bell: AtomicU64,
    /// How many frames each feeder has fed.
    paces: [AtomicU64; 16],
}

/// Waits on a word for so many microseconds, as long as its lower half is the one that was seen.
fn wait_on<R: Wait>(rt: &R, word: &AtomicU64, seen: u64, micros: u64) {
    word.park_timeout(rt, (seen & LOWER) as u32, Duration::from_micros(micros));
}

/// A feeder naps: nobody wakes it.
fn nap<R: Wait>(rt: &R) {
    wait_on(rt, &AtomicU64::new(0), 0, NAP);
}

impl Activity {
    /// Of a run with so many feeders, at most 16, and mailboxes of so many notices. Nobody is at
    /// work yet.
    pub fn new(feeders: u32, mail: u32) -> Activity {
        Activity {
            feeders: u64::from(feeders),
            many: u64::from(mail / 2).min(CROWD),
            begun: AtomicU64::new(0),
            at_work: AtomicU64::new(0),
            inspectors: AtomicU64::new(0),
            bell: AtomicU64::new(0),
            paces: [
                AtomicU64::new(AWAY),
                AtomicU64::new(AWAY),
                AtomicU64::new(AWAY),
                AtomicU64::new(AWAY),
                AtomicU64::new(AWAY),
                AtomicU64::new(AWAY),
                AtomicU64::new(AWAY),
                AtomicU64::new(AWAY),
                AtomicU64::new(AWAY),
                AtomicU64::new(AWAY),
                AtomicU64::new(AWAY),
                AtomicU64::new(AWAY),
                AtomicU64::new(AWAY),
                AtomicU64::new(AWAY),
                AtomicU64::new(AWAY),
                AtomicU64::new(AWAY),
            ],
        }
    }

    fn set_pace(&self, number: u32, pace: u64) {
        if let Some(word) = self.paces.get(number as usize) {
            word.store(pace, Ordering::SeqCst);
        }
    }

    fn slowest(&self) -> u64 {
        let mut slowest = AWAY;
        for word in &self.paces {
            slowest = slowest.min(word.load(Ordering::SeqCst));
        }
        slowest
    }

    /// A feeder begins.
    pub(crate) fn begin(&self, number: u32) {
        self.at_work.fetch_add(1, Ordering::SeqCst);
        self.set_pace(number, 0);
        self.begun.fetch_add(1, Ordering::SeqCst);
    }

    /// A feeder has ended.
    pub(crate) fn end(&self, number: u32) {
        self.set_pace(number, AWAY);
        self.at_work.fetch_sub(1, Ordering::SeqCst);
        self.ring();
    }

    /// Wakes all inspectors who doze.
    fn ring(&self) {
        let rung = self.bell.load(Ordering::SeqCst);
        self.bell
            .store(rung.wrapping_add(1) & LOWER, Ordering::SeqCst);
        self.bell.wake_all();
    }

    /// A feeder that has fed so many frames lets slower ones catch up, but not for long.
    pub(crate) fn keep_pace<R: Wait>(&self, rt: &R, number: u32, fed: u64) {
        if fed % STRIDE != 0 {
            return;
        }
        self.set_pace(number, fed);
        for _nap in 0..MAX_NAPS {
            if fed.saturating_add(STRIDE) <= self.slowest().saturating_add(MAX_AHEAD) {
                return;
            }
            nap(rt);
        }
    }

    /// Who has fed so many frames sees so many packets wait. Where these may fill half of a
    /// mailbox, it wakes inspectors.
    pub(crate) fn see_waiting(&self, fed: u64, waiting: u64) {
        if fed % STRIDE == 0 && waiting >= self.many {
            self.ring();
        }
    }

    /// A feeder naps, so that inspectors come to work, unless they have found nothing. Whether it
    /// did.
    pub(crate) fn wait_for_inspectors<R: Wait>(&self, rt: &R) -> bool {
        if self.is_idle() {
            return false;
        }
        nap(rt);
        true
    }

    /// Whether inspectors have come, and all that are there have found nothing since the bell rang.
    fn is_idle(&self) -> bool {
        let inspectors = self.inspectors.load(Ordering::SeqCst);
        let idle = self.bell.load(Ordering::SeqCst) >> 32;
        inspectors >= UPPER_ONE && idle >= inspectors & LOWER
    }

    /// An inspector comes, and is at work.
    pub(crate) fn come(&self) {
        self.rise();
        self.inspectors.fetch_add(UPPER_ONE + 1, Ordering::SeqCst);
    }

    /// An inspector that isn't at work any more leaves.
    pub(crate) fn leave(&self) {
        self.inspectors.fetch_sub(1, Ordering::SeqCst);
    }

    /// An inspector is at work.
    pub(crate) fn rise(&self) {
        self.at_work.fetch_add(1, Ordering::SeqCst);
    }

    /// It isn't any more.
    pub(crate) fn rest(&self) {
        self.at_work.fetch_sub(1, Ordering::SeqCst);
    }

    /// How often the bell has rung.
    pub(crate) fn rung(&self) -> u64 {
        self.bell.load(Ordering::SeqCst) & LOWER
    }

    /// An inspector has found nothing since the bell rang so many times.
    pub(crate) fn note_idle(&self, rung: u64) {
        if self.rung() == rung {
            self.bell.fetch_add(UPPER_ONE, Ordering::SeqCst);
        }
    }

    /// An inspector dozes for so many microseconds, or until the bell rings, or not at all where it
    /// has rung more often.
    pub(crate) fn doze<R: Wait>(&self, rt: &R, rung: u64, micros: u64) {
        wait_on(rt, &self.bell, rung, micros);
    }

    /// Whether all feeders have ended, and all inspectors have found nothing: nothing is left to
    /// do. An inspector asks that has dozed so often since it last found something.
    pub(crate) fn is_quiet(&self, dozes: u32) -> bool {
        if self.begun.load(Ordering::SeqCst) < self.feeders {
            if dozes < MAX_DOZES {
                return false;
            }
            self.begun.store(self.feeders, Ordering::SeqCst);
        }
        self.at_work.load(Ordering::SeqCst) == 0
    }
}
