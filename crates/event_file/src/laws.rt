//! Laws of lines, commands, answers and transcripts: each function does nothing, and its contract is the law.

ghost use Rattle.std.specs.Prelude.{◌≡◌, ◌∷◌, [], true, false, codes, Some, None};
ghost use Rattle.if_addrs.specs.declared.kind.Kind.TheVariants.{Broadcast, Loopback as LoopbackKind, PointToPoint};
ghost use Rattle.route_core.specs.declared.command.Command.TheVariants.{Attach, AddAddress, RemoveAddress, Open, Close, Loopback, Write, Read, Lost, Packet, Redirect, Losing, DumpSize, Dump};
ghost use Rattle.route_core.specs.declared.answer.Answer.TheVariants.{Dropped, Messages, Routed, Size};
ghost use Rattle.sock_addrs.specs.declared.errno.Errno.TheVariants.{ENOMEM};
ghost use Rattle.sock_addrs.specs.declared.gate.Gate.TheVariants.{Inet as InetGate, Link as LinkGate};
ghost use Rattle.event_file.specs.Answers.{ResponsesEndInANewline, answer_text};
ghost use Rattle.event_file.specs.Causes.{ComputedHasMemory, ComputedIsCounted, CountedIsTranscript, EachRefusalIsCounted, UnrefusedIsComputed};
ghost use Rattle.event_file.specs.Lines.{EndedLinesAreRead, LastLineIsRead, ScriptIsItsLines};
ghost use Rattle.event_file.specs.Printed.{PrintedFits, PrintedIsRead, ReadIsWithinBounds, line_of};
ghost use Rattle.event_file.specs.Reached.{ScriptsLeadToWorlds};
ghost use Rattle.event_file.specs.RouteLaws.{ComposedIsRead, RouteLinesAreRead};
ghost use Rattle.event_file.specs.Runs.{OthersLeaveTheText, RunIsTranscript, TranscriptIsRun};
ghost use Rattle.event_file.specs.Transcript.{ComputedIsTranscript, ResponseIsComputed, TranscriptIsComputed};

use crate::answers::TEXT_ROOM;
use crate::line_buffer::LONGEST_LINE;
use route_core::laws::{effects_have_memory, left_out_for_room, others_do_not_disturb};
use route_msgs::laws::{sockaddrs_are_read, written_is_read};

/// Lines without a newline in them are read of the script in which a newline stands behind each but perhaps the last,
/// and every script is the lines that are read of it.
pub fn lines_are_read()
    ensures ended { EndedLinesAreRead }
    ensures last { LastLineIsRead }
    ensures script { ScriptIsItsLines }
{}

/// What is printed of a command within the grammar's bounds is read as that command, and is no longer than a line may
/// be.
pub fn printed_is_read()
    ensures read { PrintedIsRead }
    ensures fits { PrintedFits }
{}

/// Every command that some line says is within the grammar's bounds.
pub fn read_is_within_bounds()
    ensures { ReadIsWithinBounds }
{}

/// In every world that a script leads to, from the empty one on, the table is in order with no pair of a key and a mask
/// twice, each route leads by way of an address, with a mask for clones of at most 32 bits, and out of one of the
/// interfaces, neither a number of an address nor an id of a socket is given twice, and what waits for a socket fits
/// its queue.
pub fn scripts_lead_to_worlds()
    ensures { ScriptsLeadToWorlds }
{
    // A fact for the proof: what is read is within bounds.
    read_is_within_bounds();
}

/// The message that a `route` line writes is read without a fault: its type is the verb's, its other fields and its
/// addresses are those of the words, and it has no other address.
pub fn route_lines_are_read()
    ensures composed { ComposedIsRead }
    ensures lines { RouteLinesAreRead }
{
    // Facts for the proof: what is written is read again.
    written_is_read();
    sockaddrs_are_read();
}

/// The lines of commands, worked out.
pub fn printing_by_example()
    ensures attach { line_of (Attach (codes "ed0") Broadcast 6 (0x08 ∷ 0x00 ∷ 0x20 ∷ 0xfe ∷ []))
        ≡ codes "if ed0 broadcast 6 080020fe" }
    ensures no_link { line_of (Attach (codes "lo0") LoopbackKind 24 []) ≡ codes "if lo0 loopback 24 -" }
    ensures point_to_point { line_of (Attach (codes "sl0") PointToPoint 28 []) ≡ codes "if sl0 ptp 28 -" }
    ensures add_address { line_of (AddAddress (codes "ed0") 0x0a00_0001 8 false None) ≡ codes "addr ed0 10.0.0.1/8" }
    ensures cloning { line_of (AddAddress (codes "ed0") 0xffff_ff00 32 true None)
        ≡ codes "addr ed0 255.255.255.0/32 cloning" }
    ensures far { line_of (AddAddress (codes "sl0") 0x0b00_0001 8 false (Some 0x0b00_0002))
        ≡ codes "addr sl0 11.0.0.1/8 to 11.0.0.2" }
    ensures far_cloning { line_of (AddAddress (codes "sl0") 0x0b00_0001 8 true (Some 0x0b00_0002))
        ≡ codes "addr sl0 11.0.0.1/8 to 11.0.0.2 cloning" }
    ensures remove_address { line_of (RemoveAddress (codes "ed0") 0x0a00_0001) ≡ codes "unaddr ed0 10.0.0.1" }
    ensures open { line_of (Open (codes "a") 4294967295 0) ≡ codes "open a 4294967295 any" }
    ensures protocol { line_of (Open (codes "b") 0 255) ≡ codes "open b 0 255" }
    ensures close { line_of (Close (codes "a")) ≡ codes "close a" }
    ensures loopback_on { line_of (Loopback (codes "a") true) ≡ codes "loopback a on" }
    ensures loopback_off { line_of (Loopback (codes "a") false) ≡ codes "loopback a off" }
    ensures write { line_of (Write (codes "a") (0x5c ∷ 0x00 ∷ [])) ≡ codes "write a 5c00" }
    ensures read { line_of (Read (codes "a")) ≡ codes "read a" }
    ensures lost { line_of (Lost (codes "a")) ≡ codes "lost a" }
    ensures packet { line_of (Packet 0x0a09_0909) ≡ codes "packet 10.9.9.9" }
    ensures redirect { line_of (Redirect (record { destination = 0xa090909; gateway = 0xa000002; author = 0xa000001 }))
        ≡ codes "redirect 10.9.9.9 10.0.0.2 10.0.0.1" }
    ensures losing { line_of (Losing 0x0a09_0909) ≡ codes "losing 10.9.9.9" }
    ensures dump_size { line_of (DumpSize None) ≡ codes "dump ask" }
    ensures flags_size { line_of (DumpSize (Some 0x101)) ≡ codes "flags 00000101 ask" }
    ensures dump { line_of (Dump None 4294967295) ≡ codes "dump 4294967295" }
    ensures flags { line_of (Dump (Some 0xdead_beef) 0) ≡ codes "flags deadbeef 0" }
{}

/// The texts of answers, worked out: a packet's route by an address and one of a host by a link-layer address, and a
/// size.
pub fn answers_by_example()
    ensures routed { answer_text (Routed (record {
      key = 0x0a00_0000;
      rank = 8;
      gateway = InetGate 0x0a00_0001;
      index = 1;
      flags = 0x101;
    }))
        ≡ codes "via 10.0.0.0 8 10.0.0.1 1 00000101\n" }
    ensures dropped { answer_text (Dropped (record {
      key = 0x0a09_0909;
      rank = 33;
      gateway = LinkGate (0x09 ∷ 0x12 ∷ 0 ∷ 2 ∷ 6 ∷ 0 ∷ 1 ∷ 0 ∷ 0xab ∷ []);
      index = 65535;
      flags = 0x1005;
    }))
        ≡ codes "drop 10.9.9.9 - link:0912000206000100ab 65535 00001005\n" }
    ensures size { answer_text (Size 18446744073709551615) ≡ codes "size 18446744073709551615\n" }
    ensures left_out { answer_text (Messages ((0 ∷ 3 ∷ 0xfe ∷ []) ∷ []) (Some ENOMEM)) ≡ codes "msg 0003fe\nerr 12\n" }
{}

/// Every response's text ends in a newline.
pub fn responses_end_in_a_newline()
    ensures { ResponsesEndInANewline }
{}

/// What the machine computes for a script where memory is never refused is a transcript of it.
pub fn computed_is_transcript()
    ensures { ComputedIsTranscript }
{}

/// Every answer but that memory is refused is the one that the machine computes, and so is the world after it.
pub fn response_is_computed()
    ensures { ResponseIsComputed }
{}

/// A transcript in which no line is `err 55` is the one that the machine computes.
pub fn transcript_is_computed()
    ensures { TranscriptIsComputed }
{}

/// In what the machine computes no line is `err 55`.
pub fn computed_has_memory()
    ensures { ComputedHasMemory }
{
    // Facts for the proof: the machine's own answers are never 55.
    effects_have_memory();
    left_out_for_room();
}

/// A transcript in which memory is counted where it is refused is a transcript; the count rises for each line that is
/// `err 55`, and for nothing else; and where it stands, the text is the one that the machine computes, which is such a
/// transcript for every count.
pub fn each_refusal_is_counted()
    ensures transcript { CountedIsTranscript }
    ensures each { EachRefusalIsCounted }
    ensures unrefused { UnrefusedIsComputed }
    ensures computed { ComputedIsCounted }
{
    // Facts for the proof: the machine's own answers are never 55.
    effects_have_memory();
    left_out_for_room();
}

/// A transcript of a script without a malformed line is the texts of the answers of a run of its commands, one after
/// another, and those texts of each such run are a transcript.
pub fn transcript_is_run()
    ensures run { TranscriptIsRun }
    ensures transcript { RunIsTranscript }
{}

/// Listeners do not disturb each other in a transcript. Let x be an id, and let a script without a malformed line have
/// a transcript without a line `err 24` or `err 55`. Take out of its commands every `loopback`, `read` and `lost` of
/// other ids, and every `open` and `close` of other ids that no write names: a script of the commands that are left has
/// for a transcript the texts that their lines had, and no other without a line `err 24` or `err 55`.
pub fn others_leave_the_text()
    ensures { OthersLeaveTheText }
{
    // A fact for the proof: this law of the worlds.
    others_do_not_disturb();
}

/// The longest line and the room in which an answer's text is made, by number.
pub fn rooms_by_number()
    ensures line { LONGEST_LINE ≡ 16500 }
    ensures text { TEXT_ROOM ≡ 4096 }
{}
