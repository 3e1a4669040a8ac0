//! How an inspector pauses while it finds nothing.

use crate::activity::Activity;
use std::hint::spin_loop;
use std::sync::Wait;

/// How many empty looks in a row an inspector makes before it dozes.
const SPINS: u32 = 5;

/// How long it dozes at first, and how long at most, in microseconds.
const FIRST_DOZE: u64 = 100;

const MAX_DOZE: u64 = 1_000;

/// An inspector that has come to a run, as far as its pauses go.
#[derive(Drop)]
pub struct Pause<'a> {
    activity: &'a Activity,
    /// How many looks without a doze found nothing since one found something.
    spins: u32,
    /// How often it dozed since.
    dozes: u32,
    /// Whether it counts as at work.
    awake: bool,
    /// How often the bell had rung before its last look.
    rung: u64,
    /// How often it had rung when the inspector last told that it found nothing.
    told: u64,
}

impl<'a> Pause<'a> {
    /// An inspector comes.
    pub fn new(activity: &'a Activity) -> Pause<'a> {
        activity.come();
        Pause {
            activity,
            spins: 0,
            dozes: 0,
            awake: true,
            rung: activity.rung(),
            told: u64::MAX,
        }
    }

    /// It leaves.
    pub fn end(self) {
        let Pause {
            activity,
            awake,
            ..
        } = self;
        if awake {
            activity.rest();
        }
        activity.leave();
    }

    /// Its look found something.
    pub(crate) fn found(&mut self) {
        if !self.awake {
            self.activity.rise();
        }
        self.awake = true;
        self.spins = 0;
        self.dozes = 0;
    }

    /// Its look found nothing: it pauses. Where nothing is left to do it looks on at once.
    pub(crate) fn pause<R: Wait>(&mut self, rt: &R) {
        if self.spins < SPINS {
            for _ in 0..1u32 << self.spins {
                spin_loop();
            }
            self.spins += 1;
        } else {
            self.rest();
            if !self.activity.is_quiet(self.dozes) {
                self.doze(rt);
            }
        }
        self.rung = self.activity.rung();
    }

    fn rest(&mut self) {
        if self.awake {
            self.activity.rest();
        }
        self.awake = false;
        if self.told != self.rung {
            self.activity.note_idle(self.rung);
        }
        self.told = self.rung;
    }

    fn doze<R: Wait>(&mut self, rt: &R) {
        let micros = (FIRST_DOZE << self.dozes.min(4)).min(MAX_DOZE);
        self.activity.doze(rt, self.rung, micros);
        self.dozes = self.dozes.saturating_add(1);
        self.activity.rise();
        self.awake = true;
    }
}
