//! The flags of a queue.

use bitflags::{Flag, Flags, bitflag_items};

/// The flags of a queue. (`NFQA_CFG_F_*`, in the attribute `NFQA_CFG_FLAGS`)
#[derive(Clone, Copy, PartialEq, Eq, Debug)]
pub struct QueueFlags(u32);

bitflag_items! {
    impl QueueFlags: u32 {
        /// What finds no room goes on unqueued.
        const FAIL_OPEN = 1;
        /// Connection tracking is told of; refused here.
        const CONNTRACK = 2;
        /// Packets are taken before they are cut; without effect here.
        const GSO = 4;
        /// User and group are told of; without effect here.
        const UID_GID = 8;
        /// The security context is told of; refused here.
        const SECCTX = 16;
    }
}

impl Flags for QueueFlags {
    ghost use Rattle.std.specs.Prelude.{⊤, [], ◌∷◌, codes};
    ghost use Rattle.nfqa_msgs.specs.Numbers.{flag_fail_open, flag_conntrack, flag_gso};
    ghost use Rattle.nfqa_msgs.specs.Numbers.{flag_uid_gid, flag_secctx};

    type Bits = u32;

    ghost exact = { ⊤ };

    ghost table = { (codes "FAIL_OPEN", flag_fail_open) ∷ (codes "CONNTRACK", flag_conntrack)
        ∷ (codes "GSO", flag_gso) ∷ (codes "UID_GID", flag_uid_gid)
        ∷ (codes "SECCTX", flag_secctx) ∷ [] };

    ghost set_of = { λ flags. flags.0 };

    fn flags<'a>() -> &'a [Flag<QueueFlags>] {
        QueueFlags::FLAGS
    }

    fn bits(&self) -> u32 {
        self.0
    }

    fn from_bits_retain(bits: u32) -> QueueFlags {
        QueueFlags(bits)
    }
}
