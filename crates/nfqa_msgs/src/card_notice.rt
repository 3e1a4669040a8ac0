//! The notice of a packet that is known by its card, as a port reads it.

ghost use Rattle.std.specs.Prelude.{◌≡◌, ◌≤◌, length, option_map, Some, IfOk};
ghost use Rattle.packet_entry.specs.Fields.{IsLinkLength, IsProtocol};
ghost use Rattle.nfqa_msgs.specs.Numbers.{longest_range};
ghost use Rattle.nfqa_msgs.specs.NoticeMeaning.{notice_of};
ghost use Rattle.nfqa_msgs.specs.NoticeTexts.{told_exactly};
ghost use Rattle.nfqa_msgs.specs.NoticeWriting.{notice};

use crate::laws::notices_are_told_exactly;
use crate::notice::Notice;
use crate::notice_content::telling_of_card;
use crate::notice_reading::notice_with;
use packet_entry::{Card, NoMemory};

/// The notice of a packet that waits in `queue` under `id`, as a port reads it from its text. No
/// text is made, and the payload shares the card's bytes.
///
/// A packet of 4 gigabytes or more has no notice: that is answered as `NoMemory`.
pub fn notice_of_card(
    queue: u16,
    id: u32,
    mode: u8,
    range: u32,
    card: &Card,
) -> Result<Notice, NoMemory>
    requires protocol { IsProtocol card.now.protocol }
    requires link { IsLinkLength (length card.now.link) }
    requires range { range ≤ longest_range }
    ensures { IfOk result (λ read. option_map notice_of
        (told_exactly (notice queue mode range id card.now)) ≡ Some read) }
{
    notices_are_told_exactly();
    if card.bytes.len() > u32::MAX as usize {
        return Err(NoMemory);
    }
    let told = telling_of_card(queue, id, mode, range, card);
    let payload = card.bytes.cut(0, told.payload.len())?;
    Ok(notice_with(&told, payload))
}
