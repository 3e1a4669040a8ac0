//! What a state under the lock stands for.
ghost use Rattle.std.specs.Prelude.{List};

/// A value that stands for a list of entries, and has a label that no turn changes. Both are for
/// contracts alone.
pub trait Storied {
    /// What the list has.
    type Entry;

    // What the label is: any kind of data.
    ghost Label: { Type 0 };

    ghost entries: { Self → List Self.Entry };

    ghost label: { Self → Label };
}
