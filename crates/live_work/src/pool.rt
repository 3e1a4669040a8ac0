//! The workers behind an inspector.

ghost use Rattle.std.specs.Prelude.{◌≤◌};
ghost use Rattle.inspector_pool.specs.Numbers.{most_workers};
ghost use Rattle.live_work.specs.Numbers.{one_worker};

/// The workers behind an inspector, and the gate that is told of each of their jobs. One worker is
/// the inspector alone, and more are a pool.
#[derive(Drop)]
pub struct Pool<'a, J> {
    pub jobs: &'a J,
    /// How many workers there are.
    pub workers: u32,
    pub ghost counted: { (one_worker ≤ workers) × (workers ≤ most_workers) },
}
