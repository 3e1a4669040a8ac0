//! A config command, `struct nfqnl_msg_config_cmd`:
//!
//! | Place | Width | Field |
//! |---|---|---|
//! | 0 | 1 | command |
//! | 1 | 1 | padding, 0 |
//! | 2 | 2 | protocol family, 0; nobody reads it |

ghost use Rattle.std.specs.Prelude.{◌≡◌, ◌≤◌, ◌++◌, length, option_map, ◌+◌};
ghost use Rattle.arrayvec.specs.ArrayVec.{array_vec_len};
ghost use Rattle.netlink_codec.specs.Attributes.{attributes_text};
ghost use Rattle.nfqa_headers.specs.Numbers.{command_kind, parts_room};
ghost use Rattle.nfqa_headers.specs.Headers.{command_in, command_content, command_length};
ghost use Rattle.nfqa_headers.specs.AttributeWriting.{part, part_length};

use crate::attribute_writing::{Parts, put_part};
use crate::kinds::COMMAND;

/// The content's bytes.
pub const COMMAND_LENGTH: usize = 4;
/// Where the command stands.
const COMMAND_AT: usize = 0;

/// The command that a content says.
pub fn read_command(content: &[u8]) -> u8
    requires { command_length ≤ length content.now }
    ensures { result ≡ command_in content.now }
{
    content[COMMAND_AT]
}

/// Appends a command, where there is one.
pub fn put_command(parts: &mut Parts, command: Option<u8>)
    requires room { array_vec_len parts.old + part_length command_length ≤ parts_room }
    ensures text { parts.new.items ≡ parts.old.items ++
        attributes_text (part command_kind (option_map command_content command)) }
    ensures length { array_vec_len parts.new
        ≤ array_vec_len parts.old + part_length command_length }
{
    if let Some(command) = command {
        let mut content = [0; COMMAND_LENGTH];
        content[COMMAND_AT] = command;
        put_part(parts, COMMAND, &content);
    }
}
