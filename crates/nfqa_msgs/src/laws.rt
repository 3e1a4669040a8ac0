//! Laws of the definitions, each the contract of a function that does nothing.

ghost use Rattle.std.specs.Prelude.{◌≡◌, ℕ, ◌^◌, ◌<◌, List, [], ◌++◌, length, Some, None};
ghost use Rattle.packet_entry.specs.declared.packet.Card.{Card};
ghost use Rattle.packet_entry.specs.Numbers.{longest_payload};
ghost use Rattle.netlink_codec.specs.Numbers.{longest_content};
ghost use Rattle.netlink_codec.specs.Messages.{Front};
ghost use Rattle.nfqa_msgs.specs.declared.request.Request.{Request};
ghost use Rattle.nfqa_msgs.specs.declared.request.Decoded.TheVariants.{Asked};
ghost use Rattle.nfqa_msgs.specs.Numbers.{copy_none, copy_meta, copy_packet, longest_range};
ghost use Rattle.nfqa_msgs.specs.Numbers.{command_bind, command_unbind, command_pf_bind};
ghost use Rattle.nfqa_msgs.specs.Numbers.{command_pf_unbind, einval, erange, eopnotsupp};
ghost use Rattle.nfqa_msgs.specs.RequestReading.{decoded};
ghost use Rattle.nfqa_msgs.specs.RequestWriting.{FitsRequest, spelling, spelled};
ghost use Rattle.nfqa_msgs.specs.NoticeWriting.{Told, FitsTold, IsNoticed, IsPacketNotice};
ghost use Rattle.nfqa_msgs.specs.NoticeWriting.{notice_text, told_of};
ghost use Rattle.nfqa_msgs.specs.NoticeReading.{told_by};
ghost use Rattle.nfqa_msgs.specs.NoticeMeaning.{IsNoNotice};
ghost use Rattle.nfqa_msgs.specs.NoticeTexts.{told_exactly};

use crate::{
    BIND, EINVAL, EOPNOTSUPP, ERANGE, MAX_RANGE, META, NONE, PACKET, PF_BIND, PF_UNBIND, UNBIND,
};
use netlink_codec::{written_attributes_are_walked, written_message_is_in_front};

/// A spelling with anything after it begins with this message, uses the spelling's length, and
/// decodes to its request.
pub fn spelling_decodes_to_its_request()
    ensures front { (port call : ℕ) (request : Request) (behind : List ℕ) →
        port < 2 ^ 32 → call < 2 ^ 32 → FitsRequest request →
        let text = spelling port call request in
        Front (text ++ behind) (spelled port call request) (length text) }
    ensures request { (port call : ℕ) (request : Request) → FitsRequest request →
        decoded (spelled port call request) ≡ Asked request }
{
    written_message_is_in_front();
    written_attributes_are_walked();
}

/// What a notice tells is read back; so a text is the notice of at most one thing told, and no
/// notice is a proper prefix of another.
pub fn notices_are_told_apart()
    ensures back { (told : Told) → FitsTold told → told_by (notice_text told) ≡ Some told }
    ensures one { (told other : Told) → FitsTold told → FitsTold other →
        notice_text told ≡ notice_text other → told ≡ other }
    ensures no_prefix { (told other : Told) (behind : List ℕ) → FitsTold told → FitsTold other →
        notice_text other ≡ notice_text told ++ behind → behind ≡ [] }
{
    written_message_is_in_front();
    written_attributes_are_walked();
}

/// What a text tells exactly is what a notice of this text tells; other texts tell nothing.
pub fn notices_are_told_exactly()
    ensures told { (told : Told) → FitsTold told → told_exactly (notice_text told) ≡ Some told }
    ensures nothing { (bytes : List ℕ) → IsNoNotice bytes → told_exactly bytes ≡ None }
{
    notices_are_told_apart();
}

/// What is told of a waiting packet is what a notice can tell. So where bytes begin with the notice
/// of one packet and with that of another, the two notices are the same, and neither is a proper
/// prefix of the other.
pub fn packet_notices_are_told_apart()
    ensures fits { (queue mode range id : ℕ) (card : Card) → IsNoticed queue mode range id card →
        FitsTold (told_of queue mode range id card) }
    ensures apart { (text other behind rest : List ℕ) → IsPacketNotice text → IsPacketNotice other →
        text ++ behind ≡ other ++ rest → text ≡ other }
    ensures no_prefix { (text other behind : List ℕ) → IsPacketNotice text → IsPacketNotice other →
        other ≡ text ++ behind → other ≡ text }
{
    written_message_is_in_front();
    written_attributes_are_walked();
}

/// The public numbers are the format's: copy modes, commands, the longest range and errnos. And a
/// packet's longest payload is one attribute's longest content.
pub fn public_numbers()
    ensures modes { (NONE ≡ copy_none) × (META ≡ copy_meta) × (PACKET ≡ copy_packet) }
    ensures range { MAX_RANGE ≡ longest_range }
    ensures payload { longest_payload ≡ longest_content }
    ensures binding { (BIND ≡ command_bind) × (UNBIND ≡ command_unbind) }
    ensures family { (PF_BIND ≡ command_pf_bind) × (PF_UNBIND ≡ command_pf_unbind) }
    ensures errnos { (EINVAL ≡ einval) × (ERANGE ≡ erange) × (EOPNOTSUPP ≡ eopnotsupp) }
{}
