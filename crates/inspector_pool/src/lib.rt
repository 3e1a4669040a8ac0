//! A pool of workers behind a port. It answers notices in threads of its own, each notice once and
//! as its number says, and gives the answers in the order of the notices.
#![tactic(auto)]

mod assignment;
mod deque;
mod desk;
mod gate;
mod laws;
mod lists;
mod pool;
mod pool_worker;
mod sheet;
mod tray;

pub use desk::Desk;
pub use gate::{JobGate, OpenJobGate};
pub use laws::{
    a_pool_answers_as_one_inspector, each_notice_is_answered_by_its_number,
    pools_go_on_where_others_ended, public_numbers,
};
pub use lists::{AsksList, Notices, Share, Shares};
pub use pool::{MAX_NOTICES, MAX_WORKERS, MIN_WORKERS, PoolAnswers, pool_answers};
