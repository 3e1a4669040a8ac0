//! The texts of the rules file and of the script that go with a generated capture.

ghost use Rattle.std.specs.Prelude.{◌≡◌, ◌<◌, ◌^◌, length};
ghost use Rattle.generated.specs.Texts as texts;

/// The rules file: every packet goes to one of eight queues, by its flow.
#[tactic(auto, unfolding(crate::specs::Texts::rules_text))]
pub fn rules_text() -> &'static [u8]
    ensures text { result.now ≡ texts.rules_text }
    ensures short { length result.now < 2 ^ 10 }
{
    b"*filter\n-A FORWARD -j NFQUEUE --queue-balance 0:7\nCOMMIT\n"
}

/// The script: four ports, each with two of the queues, which drop UDP and accept all else.
pub fn script_text() -> &'static [u8]
    ensures text { result.now ≡ texts.script_text }
    ensures short { length result.now < 2 ^ 10 }
{
    b"hashkey 1\n\
      port 101\n\
      open config 0 bind params packet 64\n\
      open config 1 bind params packet 64\n\
      on proto 17 do verdict this drop this\n\
      on any do verdict this accept this\n\
      port 102\n\
      open config 2 bind params packet 64\n\
      open config 3 bind params packet 64\n\
      on proto 17 do verdict this drop this\n\
      on any do verdict this accept this\n\
      port 103\n\
      open config 4 bind params packet 64\n\
      open config 5 bind params packet 64\n\
      on proto 17 do verdict this drop this\n\
      on any do verdict this accept this\n\
      port 104\n\
      open config 6 bind params packet 64\n\
      open config 7 bind params packet 64\n\
      on proto 17 do verdict this drop this\n\
      on any do verdict this accept this\n"
}
