//! Rows of journals. `/` ends a line; a line may have a name.

/// Lines with names, of port 7 and queue 0. Packets come to wait (`a1` to `a3`), are copied into no
/// notice (`c1`, `c2`) or find no queue (`g1`, `g2`); what is said of the first three; devices
/// (`d1`, `d2`); queue 9; and messages, with what was asked.
pub(super) const LINES: [(&str, &str); 33] = [
    ("bind", "M 0 7 1 config 0 cmd 1 = 0 0"),
    ("whole", "M 0 7 2 config 0 params 2 0 = 0 0"),
    ("unbind", "M 0 7 2 config 0 cmd 2 = 0 0"),
    ("opens", "M 0 7 4 config 0 flags 1 mask 1 = 0 0"),
    ("a1", "A 0 1 1 1 n y 0 0 1 0 2048 - 45 taken:1"),
    ("a2", "A 0 2 1 1 n y 0 0 2 0 2048 - 45 taken:2"),
    ("a3", "A 0 3 1 1 n y 0 0 3 0 2048 - 45 taken:3"),
    ("c1", "A 0 1 1 1 n y 0 0 1 0 2048 - 45 copynone"),
    ("c2", "A 0 2 1 1 n y 0 0 2 0 2048 - 45 copynone"),
    ("g1", "A 0 1 1 1 n y 0 0 1 0 2048 - 45 noqueue"),
    ("g2", "A 0 2 1 1 n y 0 0 2 0 2048 - 45 noqueue"),
    ("v1", "M 0 7 3 verdict 0 1 1 = 0 1"),
    ("v2", "M 0 7 4 verdict 0 0 2 = 0 1"),
    ("v3", "M 0 7 5 verdict 0 1 3 = 0 1"),
    ("d1", "D 0 1 0"),
    ("d2", "D 0 2 0"),
    ("bind9", "M 9 7 2 config 9 cmd 1 = 0 0"),
    ("d9", "D 9 1 0"),
    ("c9", "A 9 2 1 1 n y 0 0 2 0 2048 - 45 copynone"),
    ("s1", "S 1 config 0 cmd 1 = 0"),
    ("s2", "S 2 config 0 params 2 0 = 0"),
    ("t3", "S 3 verdict 0 1 1 = -"),
    ("t4", "S 4 verdict 0 0 2 = -"),
    ("t5", "S 5 verdict 0 1 3 = -"),
    ("m3", "M 0 7 3 verdict 0 1 1 mark 5 payload 4500 = 0 1"),
    ("s3", "S 3 verdict 0 1 1 mark 5 payload 4500 = -"),
    (
        "s4",
        "S 4 raw 1400000004030100000000000000000000000000 = 22",
    ),
    ("s5", "S 5 batch 0 1 2 = -"),
    ("w2", "M 0 7 4 verdict 0 1 2 = 0 1"),
    ("u4", "S 4 verdict 0 1 2 = -"),
    ("f3", "A 0 3 1 1 n n 0 0 3 0 2048 - 45 userfull:3"),
    ("e8", "M 0 8 1 config 0 cmd 1 = 0 0"),
    ("r8", "S 1 config 0 cmd 1 = 0"),
];

/// Lines, and where a history isn't legal.
pub(super) const STEPS: &str = "\
bind/whole/a1/v1/a2/v2/a3/v3 => legal
 => legal
bind/whole/a1/v1/A 0 2 1 1 n y 0 0 2 0 2048 - 45 taken:4/v2/a3/v3 => 0 5
bind/whole/a1/v1/a2/v2/v3 => 0 7
g1/A 0 1 1 1 y y 0 0 1 0 2048 - 45 bypassed/A 0 1 33 1 n y 0 0 1 0 2048 - 45 loop => legal
A 0 1 1 1 n y 0 0 1 0 2048 - 45 bypassed => 0 1
A 0 1 1 1 n n 0 0 1 0 2048 - 45 noqueue => 0 1
A 0 1 32 1 n y 0 0 1 0 2048 - 45 loop => 0 1
A 0 1 34 1 n y 0 0 1 0 2048 - 45 noqueue => 0 1
A 0 1 0 1 n y 0 0 1 0 2048 - 45 noqueue => 0 1
bind/c1/whole/M 0 7 3 config 0 maxlen 1 = 0 0/a1/A 0 2 1 1 n y 0 0 2 0 2048 - 45 overflow/opens/\
A 0 2 1 1 n y 0 0 2 0 2048 - 45 overflow-open => legal
bind/whole/A 0 1 1 1 n n 0 0 1 0 2048 - 45 userfull:1/a2/opens/\
A 0 3 1 1 n n 0 0 3 0 2048 - 45 userfull-open:3 => legal
bind/whole/a1/a1 => 0 4
M 0 7 1 config 0 cmd 3 = 0 0/M 0 7 1 config 0 cmd 2 = 19 0/M 0 7 1 config 0 maxlen 1 = 19 0/\
M 0 7 1 config 0 cmd 5 = 95 0/M 0 7 1 verdict 0 1 1 = 19 0/M 0 7 1 batch 0 1 1 = 19 0 => legal
bind/bind => 0 2
bind/M 0 7 2 config 0 cmd 1 = 16 0/M 0 8 1 config 0 params 2 0 = 1 0/M 0 7 2 config 0 flags 1 = 22 0/\
M 0 7 2 config 0 flags 32 mask 32 = 95 0/M 0 7 2 config 0 flags 2 mask 2 = 95 0 => legal
bind/whole/a1/M 0 8 1 verdict 0 1 1 = 1 0/M 0 7 3 verdict 0 - = 22 0/M 0 7 3 verdict 0 2 1 = 22 0/\
M 0 7 3 verdict 0 1 2 = 2 0/M 0 7 3 batch 0 1 0 = 2 0/M 0 7 3 config 0 cmd 2 = 0 1/bind => legal
bind/whole/a1/M 0 7 3 config 0 cmd 2 = 0 0 => 0 4
bind/whole/a1/M 0 7 3 verdict 0 1 2 = 0 1 => 0 4
bind/whole/a1/a2/a3/M 0 7 3 batch 0 1 2 = 0 2 => legal
bind/whole/a1/a2/a3/M 0 7 3 batch 0 1 2 = 0 3 => 0 6
C 0 7 0 => 0 1
d1 => 0 1
bind/whole/a1/a2/C 0 7 2/bind => legal
bind/whole/a1/a2/C 0 7 1 => 0 5
bind/whole/a1/C 0 8 1 => 0 4
bind/whole/a1/D 0 3 0/D 0 1 1/d2/a2 => legal
bind/whole/a1/D 0 3 1 => 0 4
C 5 7 0/D 65535 1 0 => 5 1
bind/whole/C 0 7 0/D 65535 1 0 => 65535 1
bind/a1/D 1 1 0/D 2 1 0 => 0 2";

/// The first table queues every packet at queue 0, the second one at queue 1.
pub(super) const TWO_TABLES: &[u8] = b"*mangle
-A FORWARD -j NFQUEUE
COMMIT
*filter
-A FORWARD -j NFQUEUE --queue-num 1 --queue-bypass
COMMIT
";

/// Lines, and the least packet that didn't go as it should.
pub(super) const JOURNEYS: &str = "\
bind/whole/a1/a2/a3 => sound
 => 1
bind/whole/a1/a2 => 3
bind/whole/a1/a2/a3/A 0 1 1 1 n y 0 0 1 0 2048 - 45 taken:4 => 1
bind/whole/a1/a2/a3/A 0 4 1 1 n y 0 0 4 0 2048 - 45 taken:4 => 4
bind/whole/A 0 1 1 1 y y 0 0 1 0 2048 - 45 taken:1/a2/a3 => 1
bind/whole/a1/A 0 2 1 1 n y 1 0 2 0 2048 - 45 taken:2/a3 => 2
bind/whole/a1/a2/A 0 3 1 1 n y 0 0 3 0 2048 - 46 taken:3 => 3
bind/whole/a1/a2/A 0 3 1 2 n y 0 0 3 0 2048 - 45 taken:3 => 3
bind/whole/a1/a2/a3/v1/A 1 1 2 2 y y 0 0 1 0 2048 - 45 bypassed => sound
bind/whole/a1/a2/a3/v1 => 1
bind/whole/a1/a2/a3/M 0 7 3 verdict 0 0 1 = 0 1 => sound
bind/whole/a1/a2/a3/M 0 7 3 verdict 0 0 1 = 0 1/A 1 1 2 2 y y 0 0 1 0 2048 - 45 bypassed => 1
bind/whole/a1/a2/a3/M 0 7 3 verdict 0 5 1 = 0 1 => sound
bind/whole/a1/a2/a3/M 0 7 3 verdict 0 4 1 = 0 1/A 0 1 2 1 n y 0 0 1 0 2048 - 45 taken:4 => sound
bind/whole/a1/a2/a3/C 0 7 3 => sound
bind/whole/a1/a2/a3/D 0 1 3 => sound
bind/whole/a1/a2/a3/M 0 7 3 batch 0 1 2 mark 5 = 0 2/\
A 1 1 2 2 y y 5 0 1 0 2048 - 45 bypassed/A 1 2 2 2 y y 5 0 2 0 2048 - 45 bypassed => sound
bind/whole/a1/a2/a3/M 0 7 3 batch 0 1 2 mark 5 = 0 2/\
A 1 1 2 2 y y 5 0 1 0 2048 - 45 bypassed/A 1 2 2 2 y y 0 0 2 0 2048 - 45 bypassed => 2
bind/whole/a1/a2/a3/M 0 7 3 verdict 0 1 1 payload 46 priority 9 = 0 1/\
A 1 1 2 2 y y 0 9 1 0 2048 - 46 bypassed => sound
bind/whole/a1/a2/a3/M 0 7 3 verdict 0 196611 1 = 0 1/A 3 1 2 1 n y 0 0 1 0 2048 - 45 noqueue => sound
bind/whole/M 0 7 3 config 0 maxlen 1 flags 1 mask 1 = 0 0/a1/\
A 0 2 1 1 n y 0 0 2 0 2048 - 45 overflow-open/A 0 3 1 1 n y 0 0 3 0 2048 - 45 overflow-open/\
A 1 2 2 2 y y 0 0 2 0 2048 - 45 bypassed/A 1 3 2 2 y y 0 0 3 0 2048 - 45 bypassed => sound";

/// A script and lines, and whether frames were fed and devices went down as it says.
pub(super) const FEEDING: &str = "\
port 7| => yes
port 7|bind/c1/c2 => yes
port 7|bind/c2/c1 => no
port 7|bind/c1/c1 => no
port 7|bind/c1/c2/A 0 1 2 1 n y 0 0 1 0 2048 - 45 copynone/A 0 1 2 1 n y 0 0 1 0 2048 - 45 copynone => yes
port 7|g2/bind/c1 => no
port 7|bind/A 0 4294967295 1 1 n y 0 0 1 0 2048 - 45 copynone => yes
port 7|bind/d1 => no
down 1 after 1/port 7|bind/c1/d1/c2 => yes
down 1 after 1/port 7|bind/d1/c1/c2 => no
down 1 after 1/port 7|bind/c1/c2/d1 => no
down 1 after 1/port 7|bind/c1/d2/c2 => no
down 1 after 1/port 7|bind/c1/d1/d1 => no
down 1 after 1/port 7|bind/c1/c2 => no
down 1 after 1/port 7|bind/d1/c2 => yes
down 2 after 1/down 1 after 0/port 7|bind/d1/c1/d2 => yes
down 2 after 1/down 1 after 0/port 7|bind/d2/c1/d1 => no
down 1 after 4/port 7|bind/c1/c2 => yes
down 1 after 4/port 7|bind/c1/c2/d1 => no
down 1 after 1/port 7| => yes
down 1 after 1/port 7|g1/g2 => yes
down 1 after 1/port 7|g1/bind/c2 => yes
down 1 after 1/port 7|g1/bind/d1/c2 => yes
down 1 after 1/port 7|g1/g2/bind/d1 => no
down 1 after 1/port 7|bind/c1/unbind/g2 => yes
down 1 after 1/port 7|bind/c1/C 0 7 0/g2 => yes
down 1 after 1/port 7|bind/c1/unbind/bind/d1/c2 => yes
down 1 after 0/port 7|bind/c1/unbind => yes
down 1 after 0/down 1 after 0/port 7|bind => yes
down 1 after 0/down 1 after 0/port 7|bind/d1 => yes
down 1 after 0/down 1 after 0/port 7|bind/d1/d1 => yes
down 1 after 0/down 1 after 0/port 7|bind/d1/d1/d1 => no
down 1 after 0/down 1 after 0/port 7|bind/d1/unbind/bind/d1 => yes
down 1 after 0/down 1 after 0/port 7|bind/d1/c1/d1 => no
down 1 after 0/down 2 after 0/port 7|bind/d1 => no
down 1 after 0/down 2 after 0/port 7|bind/d2 => yes
down 1 after 0/down 2 after 0/port 7|bind/d1/d2 => yes
down 1 after 0/down 2 after 0/port 7|bind/d2/d1 => no
down 1 after 0/down 2 after 0/port 7|bind/d1/unbind => yes
down 1 after 0/down 2 after 0/port 7|bind/d2/unbind => yes
down 1 after 1/port 7|bind/c1/d1/bind9/d9/c9 => yes
down 1 after 1/port 7|bind/c1/d1/bind9/c9/d9 => no
down 1 after 1/port 7|bind/d1/c1/bind9/d9/c9 => no
down 1 after 1/port 7|bind9/c9 => yes";

/// Port 7 drops the packet with id 2 and accepts every other one. The raw bytes are no message.
pub(super) const LOGGED: &str = "port 7/open config 0 bind/open config 0 params packet 0/\
on id 2 do verdict this drop this/on any do raw 00 ; verdict this accept this/\
end raw 00/end config 0 unbind/end close";

/// Changes of two packets that come to wait, and a log: the kinds of its messages. The first packet
/// is one of IPv6; behind an Ethernet header, also one with a tag; has a mark and a priority; and
/// is reported without its bytes, or with the first of them alone.
pub(super) const LOGS: &str = "\
|P 7/s1/s2/R 0 1 1/t3/R 0 2 1/t4/S 5 config 0 cmd 2 = 0/X => 7ooaae
|P 7/s1/s2/S 3 config 0 cmd 2 = 0/R 0 2 1/t4/X => 7ooea
|P 7/s1/s2/S 3 config 0 cmd 2 = 0/X => 7ooe
a1>A 0 1 1 1 n y 0 0 1 0 34525 - 60 taken:1|P 7/s1/s2/R 0 1 1/t3/S 4 config 0 cmd 2 = 0/X => 7ooae
a1>A 0 1 1 1 n y 0 0 1 0 2048 0102030405060708090a0b0c0800 45 taken:1|\
P 7/s1/s2/R 0 1 1/t3/S 4 config 0 cmd 2 = 0/X => 7ooae
a1>A 0 1 1 1 n y 0 0 1 0 2048 0102030405060708090a0b0c810000050800 45 taken:1|\
P 7/s1/s2/R 0 1 1/t3/S 4 config 0 cmd 2 = 0/X => 7ooae
a1>A 0 1 1 1 n y 8 9 1 999999 2048 - 45 taken:1|P 7/s1/s2/R 0 1 1/t3/S 4 config 0 cmd 2 = 0/X => 7ooae
whole>M 0 7 2 config 0 params 1 0 = 0 0|P 7/s1/s2/R 0 1 1/t3/S 4 config 0 cmd 2 = 0/X => 7ooae
whole>M 0 7 2 config 0 params 2 1 = 0 0,a1>A 0 1 1 1 n y 0 0 1 0 2048 - 4500 taken:1|\
P 7/s1/s2/R 0 1 1/t3/S 4 config 0 cmd 2 = 0/X => 7ooae
| => no
|P 8 => no
|P 7 => no
|P 7/X => no
|P 7/s1/s2/S 3 config 0 cmd 2 = 0 => no
|P 7/s1/S 3 config 0 params 2 0 = 0/S 3 config 0 cmd 2 = 0/X => no
|P 7/s1/s2/R 0 1 1/R 0 2 1/t3/t4/S 5 config 0 cmd 2 = 0/X => no
|P 7/s1/s2/R 0 3 1/S 3 config 0 cmd 2 = 0/X => no
|P 7/s1/s2/R 0 1 1/S 3 verdict 0 0 1 = -/S 4 config 0 cmd 2 = 0/X => no";

/// Two ports, each with room for three notices. The raw message has an unknown number.
pub(super) const ROOMY: &str = "mail 3/port 7/open config 0 bind/open config 0 params packet 0/\
on id 1 do verdict this accept this mark 5 payload 4500/\
on id 2 do raw 1400000004030100000000000000000000000000 ; batch this accept this/end close/port 8";

/// Their run over two packets.
pub(super) const RUN: &str = "bind/whole/a1/m3/a2/M 0 7 5 batch 0 1 2 = 0 1/C 0 7 0/\
P 7/s1/s2/R 0 1 1/s3/R 0 2 1/s4/s5/X/P 8";

/// A script (else that of two ports), lines (else its run's), changes and kinds of messages, and
/// the parts that don't hold: the log (a), requests (b), notices (c), closing (d), feeder (e),
/// ports (f), order (g) and room (h). Of histories that aren't legal nothing is said of the feeder.
pub(super) const PARTS: &str = "\
|||7ooaa => \n\
||bind>M 0 7 1 config 0 cmd 1 = 1 0|7ooaa => b
||bind>M 0 7 9 config 0 cmd 1 = 0 0|7ooaa => b
||whole>M 0 7 2 config 0 params 2 4 = 0 0|7ooaa => b
||whole>M 0 7 2 config 0 params 2 0 maxlen 4 = 0 0|7ooaa => b
||m3>M 0 7 3 verdict 0 0 1 mark 5 payload 4500 = 0 1|7ooaa => b
||m3>M 0 7 3 verdict 0 1 1 mark 6 payload 4500 = 0 1|7ooaa => b
||m3>M 0 7 3 verdict 0 1 1 mark 5 payload 4501 = 0 1|7ooaa => b
||m3>M 0 7 3 verdict 0 1 1 mark 5 = 0 1|7ooaa => b
||m3>M 0 7 3 verdict 0 1 1 mark 5 payload 4500 priority 1 = 0 1|7ooaa => b
||M 0 7 5 batch 0 1 2 = 0 1>M 0 7 5 batch 0 1 3 = 0 1|7ooaa => b
||M 0 7 5 batch 0 1 2 = 0 1>M 0 7 5 verdict 0 1 2 = 0 1|7ooaa => b
||s1>S 1 config 0 cmd 1 = -|7ooaa => b
||s1>S 1 config 0 cmd 1 = 1|7ooaa => b
||s3>S 3 verdict 0 1 1 mark 5 payload 4500 = 0|7ooaa => b
||s4>S 4 raw 1400000004030100000000000000000000000000 = 95|7ooaa => b
||s4>S 4 raw 1400000004030100000000000000000000000000 = -|7ooaa => b
||s4>S 4 raw 14000000 = -|7ooaa => ab
||s4>S 4 raw 10000000000000000000000000000000 = -|7ooaa => a
||s4>S 4 raw 10000000000004000000000000000000 = 0|7ooaa => a
||s4>S 4 raw 10000000000004000000000000000000 = 22|7ooaa => ab
||R 0 2 1>|7ooaa => ac
||R 0 2 1>R 0 3 1|7ooaa => ac
||R 0 2 1>R 0 2 2|7ooaa => ac
||R 0 2 1>R 1 2 1|7ooaa => ac
||R 0 2 1>R 0 2 1/R 0 2 1|7ooaa => ac
||C 0 7 0>|7ooaa => d
||C 0 7 0>C 0 7 0/C 0 7 0|7ooaa => d
||X>|7ooaa => ad
||P 8>|7ooaa => af
||P 8>P 8/P 9|7ooaa => f
||P 8>P 9|7ooaa => af
||whole>A 0 3 1 1 n y 0 0 3 0 2048 - 45 copynone/whole|7ooaa => eg
||C 0 7 0>C 0 7 0/A 0 3 1 1 n y 0 0 3 0 2048 - 45 noqueue|7ooaa => g
||C 0 7 0>C 0 7 0/A 0 1 2 1 n y 0 0 1 0 2048 - 45 noqueue|7ooaa => \n\
||C 0 7 0>A 0 3 1 1 n n 0 0 3 0 2048 - 45 userfull:3/C 0 7 0|7ooaa => h
port 7/port 8|P 7/P 8|| => \n\
port 7/port 8|P 8/P 7|| => f
port 7/open config 0 bind/port 8/open config 0 bind|\
bind/M 0 8 1 config 0 cmd 1 = 1 0/P 7/s1/P 8/S 1 config 0 cmd 1 = 1||7o8o => \n\
port 7/open config 0 bind/port 8/open config 0 bind|\
M 0 8 1 config 0 cmd 1 = 1 0/bind/P 7/s1/P 8/S 1 config 0 cmd 1 = 1||7o8o => g
port 7/end config 0 bind/port 8/end config 0 bind|\
bind/M 0 8 1 config 0 cmd 1 = 1 0/P 7/s1/P 8/S 1 config 0 cmd 1 = 1||7e8e => \n\
port 7/end config 0 bind/port 8/end config 0 bind|\
M 0 8 1 config 0 cmd 1 = 1 0/bind/P 7/s1/P 8/S 1 config 0 cmd 1 = 1||7e8e => g
down 1 after 0/port 7/open config 0 bind|bind/d1/P 7/s1||7o => \n\
down 1 after 0/port 7/end config 0 bind|bind/d1/P 7/s1||7e => g";

/// All packets go to queue 0.
pub(super) const ONE_RULE: &[u8] = b"*filter\n-A FORWARD -j NFQUEUE --queue-num 0\nCOMMIT\n";

/// Runs by name: a script, and the journal that it makes over the three packets. The second packet
/// is dropped; or a device goes down after the first, and both ports end; or the third finds a full
/// mailbox.
pub(super) const RUNS: [(&str, &str, &str); 3] = [
    (
        "drop",
        "port 7/open config 0 bind/open config 0 params packet 0/\
on id 2 do verdict this drop this/on any do verdict this accept this",
        "bind/whole/a1/v1/a2/v2/a3/v3/P 7/s1/s2/R 0 1 1/t3/R 0 2 1/t4/R 0 3 1/t5",
    ),
    (
        "ends",
        "down 2 after 1/port 7/open config 0 bind/open config 0 params packet 0/\
on any do verdict this accept this/end close/port 8/end config 0 bind",
        "bind/whole/a1/v1/d2/a2/w2/a3/v3/C 0 7 0/e8/P 7/s1/s2/R 0 1 1/t3/R 0 2 1/u4/R 0 3 1/t5/X/P 8/r8",
    ),
    (
        "full",
        "mail 2/port 7/open config 0 bind/open config 0 params packet 0/\
on any do verdict this accept this",
        "bind/whole/a1/v1/a2/w2/f3/P 7/s1/s2/R 0 1 1/t3/R 0 2 1/u4",
    ),
];

/// A run, changes of its journal, the line that is printed, and with kinds of messages the parts
/// that don't hold. Each row but the first of a run changes as little as the finding wants.
pub(super) const FINDINGS: &str = "\
drop|| => \n\
drop|bind>| => audit: queue 0 entry 1
drop|bind>bind/bind| => audit: queue 0 entry 2
drop|whole>| => audit: queue 0 entry 2
drop|a1>A 0 1 1 1 n y 0 0 1 0 2048 - 45 taken:2| => audit: queue 0 entry 3
drop|a1>g1| => audit: queue 0 entry 3
drop|a1>c1| => audit: queue 0 entry 3
drop|a1>A 0 1 1 1 n n 0 0 1 0 2048 - 45 taken:1| => audit: queue 0 entry 3
drop|v1>M 0 7 3 verdict 0 1 2 = 0 1| => audit: queue 0 entry 4
drop|v1>M 0 7 3 verdict 0 1 1 = 2 0| => audit: queue 0 entry 4
drop|v1>M 0 7 3 verdict 0 1 1 = 0 0| => audit: queue 0 entry 4
drop|v1>M 0 7 3 verdict 0 2 1 = 0 1| => audit: queue 0 entry 4
drop|v1>M 0 8 3 verdict 0 1 1 = 0 1| => audit: queue 0 entry 4
drop|v1>v1/v1| => audit: queue 0 entry 5
drop|a2>A 0 2 1 1 n y 0 0 2 0 2048 - 45 taken:4| => audit: queue 0 entry 5
drop|a3>| => audit: queue 0 entry 7
drop|v3>v3/C 0 7 1| => audit: queue 0 entry 9
drop|v3>v3/D 0 1 1| => audit: queue 0 entry 9
drop|v3>v3/M 9 7 6 config 9 cmd 2 = 0 0| => audit: queue 9 entry 1
drop|v3>v3/C 0 7 1/M 9 7 6 config 9 cmd 2 = 0 0| => audit: queue 0 entry 9
ends|C 0 7 0>C 0 7 0/C 0 7 0| => audit: queue 0 entry 11
drop|a1>A 0 1 1 1 n y 5 0 1 0 2048 - 45 taken:1| => audit: record 1
drop|a1>A 0 1 1 1 y y 0 0 1 0 2048 - 45 taken:1| => audit: record 1
drop|a1>A 0 1 1 2 n y 0 0 1 0 2048 - 45 taken:1| => audit: record 1
drop|a1>A 0 1 2 1 n y 0 0 1 0 2048 - 45 taken:1| => audit: record 1
drop|v1>M 0 7 3 verdict 0 4 1 = 0 1| => audit: record 1
drop|v3>v3/A 0 1 2 1 n y 0 0 1 0 2048 - 45 taken:4| => audit: record 1
drop|a2>A 0 2 1 1 n y 0 6 2 0 2048 - 45 taken:2| => audit: record 2
drop|a2>A 0 2 1 1 n y 0 0 7 0 2048 - 45 taken:2| => audit: record 2
drop|a2>A 0 2 1 1 n y 0 0 2 0 34525 - 45 taken:2| => audit: record 2
drop|a2>A 0 2 1 1 n y 0 0 2 0 2048 00 45 taken:2| => audit: record 2
drop|a3>A 0 3 1 1 n y 0 0 3 0 2048 - 46 taken:3| => audit: record 3
drop|a3>,v3>| => audit: record 3
drop|a3>,v3>A 1 3 1 1 n y 0 0 3 0 2048 - 45 noqueue| => audit: record 3
drop|v3>v3/A 0 3 1 1 n y 0 0 3 0 2048 - 45 taken:4| => audit: record 3
drop|v3>v3/A 0 4 1 1 n y 0 0 4 0 2048 - 45 taken:4| => audit: record 4
drop|v1>M 0 7 3 verdict 0 0 1 = 0 1,t3>S 3 verdict 0 0 1 = -|7ooaaa => audit: makers a a
drop|s1>| => audit: makers a
drop|s2>S 2 config 0 params 1 0 = 0| => audit: makers a
drop|R 0 1 1>| => audit: makers a
drop|R 0 1 1>R 0 1 2| => audit: makers a
drop|R 0 1 1>R 0 1 1/R 0 1 1| => audit: makers a
drop|t3>S 4 verdict 0 1 1 = -| => audit: makers a
drop|t5>| => audit: makers a
drop|t5>t5/S 6 config 0 cmd 2 = 0| => audit: makers a
drop|t5>t5/X| => audit: makers a
drop|P 7>P 8| => audit: makers a
ends|X>| => audit: makers a
ends|P 8>,r8>| => audit: makers a
drop|v3>M 0 7 5 verdict 0 0 3 = 0 1|7ooaaa => audit: makers b b
drop|v1>M 0 7 3 verdict 0 1 1 mark 5 = 0 1| => audit: makers b
drop|v1>M 0 7 3 batch 0 1 1 = 0 1| => audit: makers b
drop|v1>M 0 7 9 verdict 0 1 1 = 0 1| => audit: makers b
drop|v3>| => audit: makers b
drop|v3>v3/M 0 7 6 config 0 cmd 3 = 0 0| => audit: makers b
drop|v3>v3/M 0 8 1 config 0 cmd 4 = 0 0| => audit: makers b
drop|whole>M 0 7 2 config 0 params 1 0 = 0 0| => audit: makers b
drop|s1>S 1 config 0 cmd 1 = 16| => audit: makers b
drop|s1>S 1 config 0 cmd 1 = -| => audit: makers b
drop|t3>S 3 verdict 0 1 1 = 0| => audit: makers b
drop|v3>,R 0 3 1>,t5>|7ooaa => audit: makers c c
drop|v1>,a2>a2/M 0 7 3 verdict 0 0 2 = 0 1,v2>M 0 7 4 verdict 0 1 1 = 0 1,\
R 0 1 1>R 0 2 1,t3>S 3 verdict 0 0 2 = -,R 0 2 1>R 0 1 1,t4>S 4 verdict 0 1 1 = -|7ooaaa => audit: makers c c
drop|v3>v3/C 0 7 0|7ooaaa => audit: makers d d
ends|C 0 7 0>,e8>M 0 8 1 config 0 cmd 1 = 1 0,r8>S 1 config 0 cmd 1 = 1| => audit: makers d
ends|v3>C 0 7 1,C 0 7 0>M 0 7 5 verdict 0 1 3 = 19 0,t5>S 5 verdict 0 1 3 = 19| => audit: makers d
drop|v3>v3/D 0 1 0|7ooaaa => audit: makers e e
drop|a1>A 0 2 1 1 n y 0 0 2 0 2048 - 45 taken:1,a2>A 0 1 1 1 n y 0 0 1 0 2048 - 45 taken:2,\
R 0 1 1>R 0 2 1,R 0 2 1>R 0 1 1|7ooaaa => audit: makers e e
ends|d2>| => audit: makers e
ends|d2>d1| => audit: makers e
ends|d2>d2/d2| => audit: makers e
ends|d2>,w2>w2/d2| => audit: makers e
ends|d2>,whole>whole/d2| => audit: makers e
drop|t5>t5/P 9|7ooaaa => audit: makers f f
drop|P 7>P 9/P 7| => audit: makers f
ends|P 7>P 8/r8/P 7,P 8>,r8>| => audit: makers f
ends|P 8>P 9/P 8| => audit: makers f
drop|bind>g1/bind,a1>A 0 2 1 1 n y 0 0 2 0 2048 - 45 taken:1,a2>A 0 3 1 1 n y 0 0 3 0 2048 - 45 taken:2,\
a3>,v3>,R 0 1 1>R 0 2 1,R 0 2 1>R 0 3 1,R 0 3 1>,t5>|7ooaa => audit: makers g g
drop|whole>c1/whole,a1>A 0 2 1 1 n y 0 0 2 0 2048 - 45 taken:1,a2>A 0 3 1 1 n y 0 0 3 0 2048 - 45 taken:2,\
a3>,v3>,R 0 1 1>R 0 2 1,R 0 2 1>R 0 3 1,R 0 3 1>,t5>|7ooaa => audit: makers g g
ends|a3>M 0 8 1 config 0 cmd 1 = 1 0/a3,e8>,r8>S 1 config 0 cmd 1 = 1| => audit: makers g
ends|C 0 7 0>M 0 8 1 config 0 cmd 1 = 1 0/C 0 7 0,e8>,r8>S 1 config 0 cmd 1 = 1| => audit: makers g
drop|a3>f3,v3>,R 0 3 1>,t5>|7ooaa => audit: makers h h
full|a2>A 0 2 1 1 n n 0 0 2 0 2048 - 45 userfull:2,w2>,R 0 2 1>,u4>| => audit: makers h
ends|| => \n\
full|| => ";
