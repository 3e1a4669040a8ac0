//! What a plane is made with.

use hook_chain::Tables;

/// What a plane is made with.
#[derive(Drop)]
pub struct Setting {
    /// The tables that packets go through.
    pub tables: Tables,
    /// The key of the flow hash.
    pub key: u32,
    /// How many notices a mailbox holds.
    pub mail: u32,
}
