//! Texts about what came from outside, in which no control character of ASCII is left for a terminal to obey.
ghost use Rattle.std.specs.Prelude.{◌≡◌, ◌++◌, OnOk, is_err};
ghost use Rattle.lab_main.specs.Texts.{echoed, quoted_wrong, told_plainly, visible, visible_byte};
ghost use Rattle.memory.specs.Refusing.{Rises};

use lab_text::Text;
use memory::Memory;
use std::alloc::AllocError;

/// Appends a line behind its number.
pub(crate) fn put_echo(
    text: &mut Text,
    number: u64,
    line: &[u8],
    memory: &mut Memory,
) -> Result<(), AllocError>
    ensures put { OnOk result (text.new ≡ text.old ++ echoed number line.now) }
    ensures counted { Rises (is_err result) memory.old memory.new }
{
    text.put_number(number, memory)?;
    text.put(b": ", memory)?;
    put_visible(text, line, memory)?;
    text.put(b"\n", memory)
}

/// Appends a plain line that stands for another one.
pub(crate) fn put_plainly(
    text: &mut Text,
    plain: &[u8],
    memory: &mut Memory,
) -> Result<(), AllocError>
    ensures put { OnOk result (text.new ≡ text.old ++ told_plainly plain.now) }
    ensures counted { Rises (is_err result) memory.old memory.new }
{
    text.put(b"= ", memory)?;
    put_visible(text, plain, memory)?;
    text.put(b"\n", memory)
}

/// Appends that this word is wrong.
pub(crate) fn put_quoted_wrong(
    text: &mut Text,
    word: &[u8],
    memory: &mut Memory,
) -> Result<(), AllocError>
    ensures put { OnOk result (text.new ≡ text.old ++ quoted_wrong word.now) }
    ensures counted { Rises (is_err result) memory.old memory.new }
{
    text.put(b" (`", memory)?;
    put_visible(text, word, memory)?;
    text.put(b"`) is wrong", memory)?;
    Ok(())
}

/// Appends bytes, each below 32, and 127, by its number, as `\x1b`.
fn put_visible(text: &mut Text, bytes: &[u8], memory: &mut Memory) -> Result<(), AllocError>
    ensures put { OnOk result (text.new ≡ text.old ++ visible bytes.now) }
    ensures counted { Rises (is_err result) memory.old memory.new }
{
    for byte in bytes {
        put_byte(text, *byte, memory)?;
    }
    Ok(())
}

/// Appends a byte, or its number.
fn put_byte(text: &mut Text, byte: u8, memory: &mut Memory) -> Result<(), AllocError>
    ensures put { OnOk result (text.new ≡ text.old ++ visible_byte byte) }
    ensures counted { Rises (is_err result) memory.old memory.new }
{
    if byte < 32 || byte == 127 {
        text.put(b"\\x", memory)?;
        return text.put_digits(&[byte], memory);
    }
    text.put(&[byte], memory)
}
