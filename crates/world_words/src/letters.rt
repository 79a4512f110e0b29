//! The letters of a route's flags.
ghost use Rattle.std.specs.Prelude.{◌≡◌, ◌++◌, OnOk, is_err};
ghost use Rattle.memory.specs.Refusing.{Rises};
ghost use Rattle.message_text.specs.Names.{named};
ghost use Rattle.world_words.specs.Flags.{flag_letters, high_letters, letter_of, letters_among, low_letters};

use lab_text::Text;
use memory::Memory;
use route_msgs::flags::{
    RTF_BLACKHOLE, RTF_CLONING, RTF_DONE, RTF_DYNAMIC, RTF_GATEWAY, RTF_HOST, RTF_LLINFO, RTF_MASK,
    RTF_MODIFIED, RTF_PROTO1, RTF_PROTO2, RTF_REJECT, RTF_STATIC, RTF_UP, RTF_XRESOLVE,
};
use std::alloc::AllocError;

/// Appends the letters of a route's flags, in the way of netstat(1).
pub(crate) fn put_flag_letters(
    text: &mut Text,
    flags: u16,
    memory: &mut Memory,
) -> Result<(), AllocError>
    ensures put { OnOk result (text.new ≡ text.old ++ flag_letters flags) }
    ensures counted { Rises (is_err result) memory.old memory.new }
{
    put_low_letters(text, flags, memory)?;
    put_high_letters(text, flags, memory)
}

/// Appends the letter of a flag where it is set.
#[tactic(auto, unfolding(crate::specs::Flags::letter_of))]
fn put_letter(
    text: &mut Text,
    flags: u16,
    flag: u16,
    letter: &[u8],
    memory: &mut Memory,
) -> Result<(), AllocError>
    ensures put { OnOk result (text.new ≡ text.old ++ letter_of flags (named flag letter.now)) }
    ensures counted { Rises (is_err result) memory.old memory.new }
{
    if flags & flag == 0 {
        return Ok(());
    }
    text.put(letter, memory)
}

/// Appends the letters of the lower half of a route's flags.
#[tactic(auto, unfolding(crate::specs::Flags::letters_among, crate::specs::Flags::low_letters))]
fn put_low_letters(text: &mut Text, flags: u16, memory: &mut Memory) -> Result<(), AllocError>
    ensures put { OnOk result (text.new ≡ text.old ++ letters_among low_letters flags) }
    ensures counted { Rises (is_err result) memory.old memory.new }
{
    put_letter(text, flags, RTF_UP, b"U", memory)?;
    put_letter(text, flags, RTF_GATEWAY, b"G", memory)?;
    put_letter(text, flags, RTF_HOST, b"H", memory)?;
    put_letter(text, flags, RTF_REJECT, b"R", memory)?;
    put_letter(text, flags, RTF_DYNAMIC, b"D", memory)?;
    put_letter(text, flags, RTF_MODIFIED, b"M", memory)?;
    put_letter(text, flags, RTF_DONE, b"d", memory)?;
    put_letter(text, flags, RTF_MASK, b"m", memory)
}

/// Appends the letters of the others.
#[tactic(auto, unfolding(crate::specs::Flags::letters_among, crate::specs::Flags::high_letters))]
fn put_high_letters(text: &mut Text, flags: u16, memory: &mut Memory) -> Result<(), AllocError>
    ensures put { OnOk result (text.new ≡ text.old ++ letters_among high_letters flags) }
    ensures counted { Rises (is_err result) memory.old memory.new }
{
    put_letter(text, flags, RTF_CLONING, b"C", memory)?;
    put_letter(text, flags, RTF_XRESOLVE, b"X", memory)?;
    put_letter(text, flags, RTF_LLINFO, b"L", memory)?;
    put_letter(text, flags, RTF_STATIC, b"S", memory)?;
    put_letter(text, flags, RTF_BLACKHOLE, b"B", memory)?;
    put_letter(text, flags, RTF_PROTO2, b"2", memory)?;
    put_letter(text, flags, RTF_PROTO1, b"1", memory)
}
