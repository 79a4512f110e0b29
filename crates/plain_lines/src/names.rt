//! The flags of a route by their names.
ghost use Rattle.std.specs.Prelude.{◌≡◌, map};
ghost use Rattle.message_text.specs.Names.{flag_names, named};
ghost use Rattle.plain_lines.specs.Flags.{flags_of, number_among};

use crate::words::cut;
use route_msgs::flags::{
    RTF_BLACKHOLE, RTF_CLONING, RTF_DONE, RTF_DYNAMIC, RTF_GATEWAY, RTF_HOST, RTF_LLINFO, RTF_MASK,
    RTF_MODIFIED, RTF_PROTO1, RTF_PROTO2, RTF_REJECT, RTF_STATIC, RTF_UP, RTF_XRESOLVE,
};

/// The flags of a route, each with its name in <net/route.h>, without the RTF_ before it.
pub const FLAG_NAMES: [(u16, &str); 15] = [
    (RTF_UP, "UP"),
    (RTF_GATEWAY, "GATEWAY"),
    (RTF_HOST, "HOST"),
    (RTF_REJECT, "REJECT"),
    (RTF_DYNAMIC, "DYNAMIC"),
    (RTF_MODIFIED, "MODIFIED"),
    (RTF_DONE, "DONE"),
    (RTF_MASK, "MASK"),
    (RTF_CLONING, "CLONING"),
    (RTF_XRESOLVE, "XRESOLVE"),
    (RTF_LLINFO, "LLINFO"),
    (RTF_STATIC, "STATIC"),
    (RTF_BLACKHOLE, "BLACKHOLE"),
    (RTF_PROTO2, "PROTO2"),
    (RTF_PROTO1, "PROTO1"),
];

/// The flag of this name in a table.
fn flag_among(names: &[(u16, &str)], word: &[u8]) -> Option<u16>
    ensures { result ≡ number_among (map (λ f. named f.0 f.1.now) names.now) word.now }
{
    for (flag, name) in names {
        if word == name.as_bytes() {
            return Some(*flag);
        }
    }
    None
}

/// The flag of this name, in upper case.
fn flag_named(word: &[u8]) -> Option<u16>
    ensures { result ≡ number_among flag_names word.now }
{
    flag_among(&FLAG_NAMES, word)
}

/// The flags that names say, in upper case and with commas between them: each is set, however often it is named. `None`
/// where a word is no name.
pub fn flags_named(word: &[u8]) -> Option<u16>
    ensures { result ≡ flags_of word.now }
{
    let mut flags = 0;
    let mut rest = word;
    while let Some((name, behind)) = cut(b',', rest) {
        flags |= flag_named(name)?;
        rest = behind;
    }
    Some(flags | flag_named(rest)?)
}
