//! What a command was answered.
ghost use Rattle.std.specs.Prelude.{◌≡◌, ◌<◌, ◌++◌, OnOk, flat_map, is_err, length};
ghost use Rattle.listeners.specs.Queue.{cut, AreMessages};
ghost use Rattle.memory.specs.Refusing.{Rises};
ghost use Rattle.message_text.specs.Texts.{text_of};
ghost use Rattle.world_words.specs.Answers.{answer_words, asked_words, dropped_words, ending_words, heard_words, interface_word, lost_words, packet_word, route_words, routed_words, silence_words, size_words, toward_words};

use crate::flags::put_flag_names;
use crate::reasons::put_refusal;
use lab_text::Text;
use memory::Memory;
use message_text::text_of_counted;
use route_core::{Answer, Choice, Received, Said, World, first_message};
use route_msgs::flags::RTF_GATEWAY;
use sock_addrs::Errno;
use std::alloc::{AllocError, Global};

/// Appends what a command was answered, in words, each line with a newline. `world` is the one after the command.
/// `Err`: there is no memory, which is counted.
pub fn put_answer(
    text: &mut Text,
    asked: &Said<'_>,
    answer: &Answer<'_>,
    world: &World,
    alloc: Global,
    memory: &mut Memory,
) -> Result<(), AllocError>
    ensures put { OnOk result (text.new ≡ text.old ++ answer_words asked.now answer.now world.now) }
    ensures counted { Rises (is_err result) memory.old memory.new }
{
    match answer {
        Answer::Done => text.put(b"ok\n", memory),
        Answer::Refused(errno) => put_refusal(text, asked, *errno, memory),
        Answer::Routed(choice) => put_routed(text, asked, choice, world, memory),
        Answer::Dropped(choice) => put_dropped(text, asked, choice, memory),
        Answer::Size(size) => put_size(text, asked, *size, memory),
        Answer::Messages(received, left_out) => {
            put_heard(text, asked, received, alloc, memory)?;
            put_ending(text, asked, *left_out, memory)
        }
    }
}

/// Appends where a packet goes, and by which route.
fn put_routed(
    text: &mut Text,
    asked: &Said<'_>,
    choice: &Choice,
    world: &World,
    memory: &mut Memory,
) -> Result<(), AllocError>
    ensures put { OnOk result (text.new ≡ text.old ++ routed_words asked.now choice.now world.now) }
    ensures counted { Rises (is_err result) memory.old memory.new }
{
    put_packet(text, asked, memory)?;
    text.put(b" goes", memory)?;
    put_toward(text, choice, memory)?;
    text.put(b" out of ", memory)?;
    put_interface_name(text, choice.index, world, memory)?;
    text.put(b", by ", memory)?;
    put_route(text, choice, memory)
}

/// Appends where a route leads: to its gateway, or straight to each destination where it has no gateway.
pub(crate) fn put_toward(
    text: &mut Text,
    choice: &Choice,
    memory: &mut Memory,
) -> Result<(), AllocError>
    ensures put { OnOk result (text.new ≡ text.old ++ toward_words choice.now) }
    ensures counted { Rises (is_err result) memory.old memory.new }
{
    if choice.flags & RTF_GATEWAY == 0 {
        return text.put(b" straight there", memory);
    }
    text.put(b" to ", memory)?;
    text.put_gate(&choice.gateway, memory)
}

/// Appends by which route a packet is dropped.
fn put_dropped(
    text: &mut Text,
    asked: &Said<'_>,
    choice: &Choice,
    memory: &mut Memory,
) -> Result<(), AllocError>
    ensures put { OnOk result (text.new ≡ text.old ++ dropped_words asked.now choice.now) }
    ensures counted { Rises (is_err result) memory.old memory.new }
{
    put_packet(text, asked, memory)?;
    text.put(b" is dropped without a word by ", memory)?;
    put_route(text, choice, memory)
}

/// Appends the destination of a packet.
fn put_packet(text: &mut Text, asked: &Said<'_>, memory: &mut Memory) -> Result<(), AllocError>
    ensures put { OnOk result (text.new ≡ text.old ++ packet_word asked.now) }
    ensures counted { Rises (is_err result) memory.old memory.new }
{
    match asked {
        Said::Packet { destination } => text.put_inet(*destination, memory),
        _ => text.put(b"the packet", memory),
    }
}

/// Appends the name of the interface with this number, or `-` where there is none.
pub(crate) fn put_interface_name(
    text: &mut Text,
    index: u16,
    world: &World,
    memory: &mut Memory,
) -> Result<(), AllocError>
    ensures put { OnOk result (text.new ≡ text.old ++ interface_word index world.now) }
    ensures counted { Rises (is_err result) memory.old memory.new }
{
    match world.interface(index) {
        Some(told) => text.put(told.name.as_bytes(), memory),
        None => text.put(b"-", memory),
    }
}

/// Appends the route that a packet takes, at the end of a line.
fn put_route(text: &mut Text, choice: &Choice, memory: &mut Memory) -> Result<(), AllocError>
    ensures put { OnOk result (text.new ≡ text.old ++ route_words choice.now) }
    ensures counted { Rises (is_err result) memory.old memory.new }
{
    text.put(b"the route ", memory)?;
    text.put_destination(choice.key, choice.rank, memory)?;
    text.put(b" (flags ", memory)?;
    put_flag_names(text, choice.flags, memory)?;
    text.put(b")\n", memory)
}

/// Appends how many messages were lost, or how many bytes to ask for.
fn put_size(
    text: &mut Text,
    asked: &Said<'_>,
    size: u64,
    memory: &mut Memory,
) -> Result<(), AllocError>
    ensures put { OnOk result (text.new ≡ text.old ++ size_words asked.now size) }
    ensures counted { Rises (is_err result) memory.old memory.new }
{
    match asked {
        Said::Lost { .. } => put_lost(text, size, memory),
        _ => put_asked(text, size, memory),
    }
}

/// Appends how many bytes to ask for.
fn put_asked(text: &mut Text, size: u64, memory: &mut Memory) -> Result<(), AllocError>
    ensures put { OnOk result (text.new ≡ text.old ++ asked_words size) }
    ensures counted { Rises (is_err result) memory.old memory.new }
{
    text.put_number(size, memory)?;
    text.put(b" bytes to ask for\n", memory)
}

/// Appends how many messages were lost.
fn put_lost(text: &mut Text, lost: u64, memory: &mut Memory) -> Result<(), AllocError>
    ensures put { OnOk result (text.new ≡ text.old ++ lost_words lost) }
    ensures counted { Rises (is_err result) memory.old memory.new }
{
    match lost {
        0 => text.put(b"no message was lost\n", memory),
        1 => text.put(b"1 message was lost\n", memory),
        _ => {
            text.put_number(lost, memory)?;
            text.put(b" messages were lost\n", memory)
        }
    }
}

/// Appends the messages in words, or that there is none.
fn put_heard(
    text: &mut Text,
    asked: &Said<'_>,
    received: &Received<'_>,
    alloc: Global,
    memory: &mut Memory,
) -> Result<(), AllocError>
    ensures put { OnOk result (text.new ≡ text.old ++ heard_words asked.now received.now) }
    ensures counted { Rises (is_err result) memory.old memory.new }
{
    let bytes = received.as_bytes();
    if bytes.is_empty() {
        return put_silence(text, asked, memory);
    }
    put_messages(text, bytes, alloc, memory)
}

/// Appends that there is no message.
fn put_silence(text: &mut Text, asked: &Said<'_>, memory: &mut Memory) -> Result<(), AllocError>
    ensures put { OnOk result (text.new ≡ text.old ++ silence_words asked.now) }
    ensures counted { Rises (is_err result) memory.old memory.new }
{
    match asked {
        Said::Read { .. } => text.put(b"nothing was heard\n", memory),
        _ => text.put(b"no route is told\n", memory),
    }
}

/// Appends each message in words.
fn put_messages(
    text: &mut Text,
    bytes: &[u8],
    alloc: Global,
    memory: &mut Memory,
) -> Result<(), AllocError>
    requires { AreMessages bytes.now }
    ensures put { OnOk result (text.new ≡ text.old ++ flat_map text_of (cut bytes.now)) }
    ensures counted { Rises (is_err result) memory.old memory.new }
{
    let mut rest = bytes;
    'messages: while !rest.is_empty() {
        let message = first_message(rest);
        let words = text_of_counted(alloc, message, memory)?;
        text.put(&words, memory)?;
        rest = &rest[message.len()..];
    }
    Ok(())
}

/// Appends that the messages are all, or why some are left out.
fn put_ending(
    text: &mut Text,
    asked: &Said<'_>,
    left_out: Option<Errno>,
    memory: &mut Memory,
) -> Result<(), AllocError>
    ensures put { OnOk result (text.new ≡ text.old ++ ending_words asked.now left_out) }
    ensures counted { Rises (is_err result) memory.old memory.new }
{
    match left_out {
        None => text.put(b"ok\n", memory),
        Some(errno) => put_refusal(text, asked, errno, memory),
    }
}
