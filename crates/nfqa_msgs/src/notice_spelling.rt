//! Whether bytes are the notice of what was read from them.

ghost use Rattle.std.specs.Prelude.{◌≡◌, ◌↔◌, IsTrue};
ghost use Rattle.nfqa_msgs.specs.NoticeWriting.{FitsTold, notice_text};
ghost use Rattle.nfqa_msgs.specs.Telling.{telling};

use crate::comparing::{body_in, is_in_pieces};
use crate::notice::Telling;
use crate::notice_writing::front_of;
use netlink_codec::written_attributes_are_walked;
use nfqa_headers::attribute_writing::zeros_behind;
use nfqa_headers::kinds::{NOTICE, NUMBERS, QUEUE_SUBSYSTEM};

/// Whether the bytes are the notice that tells this. What stands before the payload is compared in
/// an array, and the payload where it lies: nothing is copied, and no memory is taken.
pub(crate) fn is_notice_of(bytes: &[u8], told: &Telling<'_>) -> bool
    requires { FitsTold (telling told.now) }
    ensures { IsTrue result ↔ (bytes.now ≡ notice_text (telling told.now)) }
{
    // By the codec's law the body is short enough for a message.
    written_attributes_are_walked();
    match body_in(bytes, QUEUE_SUBSYSTEM * NUMBERS + NOTICE, 0, 0, 0) {
        None => false,
        Some(body) => is_in_pieces(
            body,
            front_of(told).as_slice(),
            told.payload,
            zeros_behind(told.payload),
        ),
    }
}
