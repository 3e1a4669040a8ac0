//! Laws of the definitions, each the contract of a function that does nothing. With the contracts
//! of this crate's other functions, which speak of the same definitions, they are laws of what
//! these make.

ghost use Rattle.std.specs.Prelude.{◌≡◌, ℕ, ◌+◌, ◌*◌, ◌<◌, ◌≤◌, Some, length, map, slice_get, take};
ghost use Rattle.std.specs.List.{range_with_len};
ghost use Rattle.packet_entry.specs.Numbers.{ipv4_type};
ghost use Rattle.ip_fields.specs.Frame.{cut, cut_of};
ghost use Rattle.ip_fields.specs.Numbers.{ipv4_header_length, link_raw};
ghost use Rattle.ip_fields.specs.Packet.{fields_of, network_number};
ghost use Rattle.pcap_io.specs.Numbers.{file_header_length, record_header_length};
ghost use Rattle.pcap_io.specs.Text.{IsCapture, IsHeld, capture_text};
ghost use Rattle.rand_core.specs.Steps.{first_words};
ghost use Rattle.rand_xoshiro.specs.SplitMix64.{splitmix_seed};
ghost use Rattle.rand_xoshiro.specs.Xoshiro256.{of_seed, plus_plus};
ghost use Rattle.hook_chain.specs.Grammar.{IsRulesFile};
ghost use Rattle.inspector_script.specs.Grammar.{IsScriptFile};
ghost use Rattle.generated.specs.Captures.{captured, generated_capture, records};
ghost use Rattle.generated.specs.Numbers.{longest_generated, most_records};
ghost use Rattle.generated.specs.Numbers.{total_length_at, total_length_width};
ghost use Rattle.generated.specs.Packets as packets;
ghost use Rattle.generated.specs.Stream.{seed_length, word};
ghost use Rattle.generated.specs.Texts as texts;
ghost use Rattle.generated.specs.Values as values;

/// The two texts are in their grammars, and say these tables and this script.
pub fn texts_are_files()
    ensures rules { IsRulesFile texts.rules_text values.tables }
    ensures script { IsScriptFile texts.script_text values.script }
{}

/// The words of a number are what xoshiro256++ gives first, in its order.
pub fn words_are_outputs()
    ensures { (number count : ℕ) → map (word number) (range_with_len 1 count)
        ≡ first_words plus_plus count (of_seed (splitmix_seed seed_length number)) }
{}

/// The packet of every word is IPv4, from the frame's first byte on, and has 20 to 83 bytes. Its
/// header says its length, its protocol and its addresses.
pub fn packets_are_ipv4()
    ensures start { (w : ℕ) → cut_of link_raw (packets.packet w) ≡ cut 0 ipv4_type }
    ensures fields { (w : ℕ) → fields_of (packets.packet w) ≡ Some (packets.fields w) }
    ensures total_length { (w : ℕ) →
        network_number total_length_width total_length_at (packets.packet w)
        ≡ length (packets.packet w) }
    ensures least { (w : ℕ) → ipv4_header_length ≤ length (packets.packet w) }
    ensures most { (w : ℕ) → length (packets.packet w) ≤ longest_generated }
{}

/// There are as many records as were asked for, each of its own word alone, and with more of them
/// the first ones stay.
pub fn records_are_of_words()
    ensures count { (number count : ℕ) → length (records number count) ≡ count }
    ensures each { (number count before : ℕ) → before < count →
        slice_get (records number count) before
        ≡ Some (captured (before + 1) (packets.packet (word number (before + 1)))) }
    ensures front { (number count more : ℕ) →
        take count (records number (count + more)) ≡ records number count }
{}

/// A capture can be written, and where it has at most 200,000 records its file is a capture file.
/// The file has a header and at most 99 bytes for each record.
pub fn captures_are_files()
    ensures held { (number count : ℕ) → IsHeld (generated_capture number count) }
    ensures file { (number count : ℕ) → count ≤ most_records →
        IsCapture (capture_text (generated_capture number count)) (generated_capture number count) }
    ensures size { (number count : ℕ) → length (capture_text (generated_capture number count))
        ≤ file_header_length + count * (record_header_length + longest_generated) }
{}
