//! Letters to a port, each with a time: each sender's are received in its order, each once. A letter
//! comes back exactly where the mailbox was found full, and none is received exactly where it was
//! found empty.
#![tactic(auto)]

mod fill;
mod line;
mod mailbox;
mod receiver;
mod sender;
mod view;

pub use mailbox::Mailbox;
pub use receiver::Receiver;
pub use sender::Sender;
pub use view::Mail;
