ghost use Rattle.std.specs.Prelude.{◌≡◌, OnOk, OnErr, Some, codes};
ghost use Rattle.event_file.specs.Output.{Wrote, WroteFront};

use crate::Counted;
use std::fmt;
use std::io::Write;
use thiserror::Error;

/// The writer failed, or took no byte.
#[derive(Clone, Copy, Debug, PartialEq, Eq, Error)]
pub struct Stopped;

impl fmt::Display for Stopped {
    ghost output = { λ _. Some (codes "the writer failed or took no byte") };

    fn fmt<W: fmt::Write>(&self, f: &mut fmt::Formatter<W>) -> fmt::Result {
        f.write_str("the writer failed or took no byte")
    }
}

/// Writes all of `bytes`, going on behind what a short write took. It is refused at the first write that answers an
/// error or takes no byte, and what was taken before is then a front of `bytes`.
pub fn write_bytes<W: Write>(bytes: &[u8], writer: &mut Counted<W>) -> Result<(), Stopped>
    requires { writer.old.failures ≡ 0 }
    ensures ok { OnOk result (Wrote W.contents writer.old writer.new bytes.now) }
    ensures err { OnErr result (WroteFront W.contents writer.old writer.new bytes.now) }
{
    let mut at = 0;
    while at < bytes.len() {
        let taken = writer.write(&bytes[at..]).unwrap_or(0);
        if taken == 0 {
            return Err(Stopped);
        }
        at += taken;
    }
    Ok(())
}
