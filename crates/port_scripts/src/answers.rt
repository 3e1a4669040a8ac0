//! What a port's inspector asks for in answer to a notice.

ghost use Rattle.std.specs.Prelude.{◌≡◌, ◌<◌, length, All, IfOk, OnOk, option_map};
ghost use Rattle.nfqa_msgs.specs.NoticeMeaning.{notice_of};
ghost use Rattle.script_lines.specs.Limits.{IsAsk};
ghost use Rattle.inspector_script.specs.Scripts.{next_count};
ghost use Rattle.run_parts.specs.Log.{asks_for};
ghost use Rattle.nfqa_msgs.specs.NoticeTexts.{told_exactly};

use inspector_script::{Asks, PortMachine, Script};
use nfqa_msgs::{Notice, decode_shared_notice, notices_are_told_exactly};
use packet_entry::{Bytes, Letter, NoMemory};
use script_lines::Ask;

/// What the inspector of a port asks for in answer to a notice, which it counts. A notice that
/// can't be read is counted too, and nothing is asked for. The list is made in `room`, whose items
/// go.
pub fn answered(
    machine: &mut PortMachine,
    room: Vec<Ask>,
    script: &Script,
    letter: &Letter,
) -> Result<Asks, NoMemory>
    requires has_port { machine.old.place < length script.now.ports }
    ensures asks { IfOk result (λ asks. asks ≡ asks_for script.now machine.old.place
        (next_count machine.old.received) (told_exactly letter.now.bytes)) }
    ensures fit { IfOk result (All IsAsk) }
    ensures counted { OnOk result
        (machine.new ≡ record machine.old { received = next_count machine.old.received }) }
{
    match notice_in(&letter.bytes)? {
        Some(notice) => machine.answer_in(room, script, &notice),
        None => {
            machine.pass_over();
            let mut none = room;
            none.clear();
            Ok(Asks::from_vec(none))
        }
    }
}

/// The notice whose text these bytes are. Its payload is a part of them: nothing is copied.
pub fn notice_in(bytes: &Bytes) -> Result<Option<Notice>, NoMemory>
    ensures { IfOk result
        (λ notice. notice ≡ option_map notice_of (told_exactly bytes.now)) }
{
    notices_are_told_exactly();
    decode_shared_notice(bytes)
}
