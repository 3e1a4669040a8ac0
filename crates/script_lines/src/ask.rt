//! What an inspector asks.

ghost use Rattle.std.specs.Prelude.{◌≡◌, ◌++◌, map, IfOk, OnOk};
ghost use Rattle.script_lines.specs.declared.ask.Ask.TheVariants.{Words};

use histories::AskWords;
use packet_entry::{NoMemory, Sequence};

/// One thing that an inspector asks for.
#[derive(Debug, Drop)]
pub enum Ask {
    /// To send a message, or raw bytes as one datagram.
    Words {
        /// What is sent.
        words: AskWords,
    },
    /// To close its port.
    Close,
}

/// What an inspector asks for, in its order.
pub type Asks = Sequence<Ask>;

/// Adds each of these messages, in their order. Their bytes are shared, not copied. When memory
/// runs out, some of them may have been added.
pub fn put_words(out: &mut Vec<Ask>, all: &Sequence<AskWords>) -> Result<(), NoMemory>
    ensures { OnOk result (out.new.items ≡ out.old.items ++ map Words all.now) }
{
    for words in all {
        let words = share_words(words)?;
        out.push(Ask::Words { words })?;
    }
    Ok(())
}

/// The same once more. Its bytes are shared, not copied.
fn share_words(words: &AskWords) -> Result<AskWords, NoMemory>
    ensures { IfOk result (λ same. same ≡ words.now) }
{
    match words {
        AskWords::Plain { request } => Ok(AskWords::Plain {
            request: request.share()?,
        }),
        AskWords::Raw { bytes } => Ok(AskWords::Raw {
            bytes: bytes.share()?,
        }),
    }
}
