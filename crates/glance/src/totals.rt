//! A place's totals, which stand in one word.

/// A place's totals.
#[derive(Clone, Copy, Debug, PartialEq, Eq)]
pub struct Totals {
    /// How many events the place has had, below 2^40.
    pub events: u64,
    /// How many packets wait there, below 2^24.
    pub waiting: u32,
}

/// The lower 24 bits of a word are the number of waiting packets.
const WAITING_SPAN: u64 = 1 << 24;

impl Totals {
    ghost use Rattle.std.specs.Prelude.{◌≡◌};
    ghost use Rattle.glance.specs.Words.{FitOneWord, word_of, totals_of};

    /// The word that stands for these totals.
    pub(crate) fn word(self) -> u64
        requires fit { FitOneWord self }
        ensures word { result ≡ word_of self }
        ensures back { totals_of result ≡ self }
    {
        self.events * WAITING_SPAN + u64::from(self.waiting)
    }

    /// The totals that a word stands for.
    pub(crate) fn of_word(word: u64) -> Totals
        ensures { result ≡ totals_of word }
    {
        Totals {
            events: word / WAITING_SPAN,
            waiting: (word % WAITING_SPAN) as u32,
        }
    }
}
