//! Whether a word is of a kind, which the grammar itself says of a line in which all else is known to be right.
ghost use Rattle.std.specs.Prelude.{◌≡◌, false, length};
ghost use Rattle.line_faults.specs.Kinds.{is_of as is_of_kind};
ghost use Rattle.line_faults.specs.Probes.{Probes};
ghost use Rattle.line_faults.specs.Words.{has_space};

use crate::WordKind;
use arrayvec::ArrayVec;
use event_file::read_said;
use route_core::MOST_WRITTEN;

/// The most bytes of a line.
pub(crate) const LONGEST_LINE: usize = 16_500;

/// A line but for one word: what stands before it, and what stands behind it.
type Probe = (&'static [u8], &'static [u8]);

/// The line that the grammar has just where the word in it is of a kind.
fn probe_of(kind: WordKind) -> Probe
    ensures { Probes kind result.0.now result.1.now }
{
    match kind {
        WordKind::InterfaceName => (b"close ", b""),
        WordKind::SocketId => (b"close ", b""),
        WordKind::InterfaceKind => (b"if a ", b" 0 -"),
        WordKind::TypeNumber => (b"if a loopback ", b" -"),
        WordKind::LinkBytes => (b"if a loopback 0 ", b""),
        WordKind::Address => (b"losing ", b""),
        WordKind::AddressPrefix => (b"addr a ", b""),
        WordKind::Pid => (b"open a ", b" any"),
        WordKind::Protocol => (b"open a 0 ", b""),
        WordKind::Switch => (b"loopback a ", b""),
        WordKind::Written => (b"write a ", b""),
        WordKind::SequenceNumber => (b"open a ", b" any"),
        WordKind::RouteVerb => (b"route a 0 ", b" default"),
        WordKind::Destination => (b"route a 0 get ", b""),
        WordKind::Gateway => (b"route a 0 get default via ", b""),
        WordKind::MaskLength => (b"route a 0 get default genmask ", b""),
        WordKind::InterfaceAddress => (b"route a 0 get default via ", b""),
        WordKind::FlagBits => (b"flags ", b" ask"),
        WordKind::Bits => (b"flags ", b" ask"),
        WordKind::Metric => (b"open a ", b" any"),
        WordKind::DumpRoom => (b"dump ", b""),
    }
}

/// Whether a word is of a kind. `room` has room for `MOST_WRITTEN` bytes, and what it held is lost.
pub(crate) fn is_of(kind: WordKind, word: &[u8], room: &mut [u8]) -> bool
    requires room { length room.old ≡ MOST_WRITTEN }
    requires word { has_space word.now ≡ false }
    ensures { result ≡ is_of_kind kind word.now }
{
    let (before, behind) = probe_of(kind);
    let mut line = ArrayVec::<u8, LONGEST_LINE>::new();
    if line.try_extend_from_slice(before).is_err() {
        return false;
    }
    if line.try_extend_from_slice(word).is_err() {
        return false;
    }
    if line.try_extend_from_slice(behind).is_err() {
        return false;
    }
    read_said(line.as_slice(), room).is_some()
}
