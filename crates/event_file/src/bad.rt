ghost use Rattle.std.specs.Prelude.{Some, codes};

use std::fmt;
use thiserror::Error;

/// A line that the grammar doesn't have.
#[derive(Clone, Copy, Debug, PartialEq, Eq, Error)]
pub struct Bad;

impl fmt::Display for Bad {
    ghost output = { λ _. Some (codes "the line is no command") };

    fn fmt<W: fmt::Write>(&self, f: &mut fmt::Formatter<W>) -> fmt::Result {
        f.write_str("the line is no command")
    }
}
