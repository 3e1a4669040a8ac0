//! How packets move from queue to queue, each to its rest or its end, whatever holds the queues:
//! what a plane is made with, where a packet stands between two queues, what becomes of it, what a
//! port's message does, and how it is logged.
#![tactic(auto)]

mod answers;
mod came;
mod fed;
mod laws;
mod setting;
mod words;

pub use answers::{acknowledge, due, make_answer_room};
pub use came::{Came, lose, turned};
pub use fed::{Fed, Refused};
pub use laws::{
    histories_stay_sound, only_feeding_feeds, what_goes_on_is_in_time, words_are_the_one_spelling,
};
pub use setting::Setting;
pub use words::words_of;
