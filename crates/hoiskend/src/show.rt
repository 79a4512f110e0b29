//! The text of a message: a function that the library exports beside those over a handle, since it has no world.
ghost use Rattle.std.specs.Prelude.{◌≡◌, length};
ghost use Rattle.event_file.specs.Given.{given};
ghost use Rattle.memory.specs.Refusing.{Rises};
ghost use Rattle.message_text.specs.Texts.{text_of as text};
ghost use Rattle.hoiskend.specs.Shown.{IsCodeOf, if_memory, is_want_of_memory};

use crate::Size;
use crate::count::Count;
use crate::given::give;
use memory::Memory;
use message_text::text_of_counted;
use sock_addrs::Errno;
use std::alloc::Global;

/// Puts the text of a message to the front of `out`, where there is room for all of it, and how many bytes it has into
/// `size`. ENOMEM: there is less room, and `out` stays; ENOBUFS: there is no memory, and `size` stays too.
#[unsafe(no_mangle)]
pub extern "C" fn hk_show(alloc: Global, message: &[u8], out: &mut [u8], size: &mut Size) -> u32
    ensures code { IsCodeOf (text message.now) (length out.old) result }
    ensures text { out.new ≡ if_memory result (given (text message.now) out.old) out.old }
    ensures size { size.new.bytes ≡ if_memory result (length (text message.now)) size.old.bytes }
    ensures counted { Rises (is_want_of_memory result) 0 size.new.refused.number }
{
    let mut memory = Memory::new();
    let code = show(alloc, message, out, &mut size.bytes, &mut memory);
    size.refused = Count::of(&memory);
    code
}

/// Gives a message's text, as `hk_show` does. Where it answers ENOBUFS, and only there, memory was refused, and
/// counted.
fn show(alloc: Global, message: &[u8], out: &mut [u8], size: &mut usize, memory: &mut Memory) -> u32
    ensures code { IsCodeOf (text message.now) (length out.old) result }
    ensures text { out.new ≡ if_memory result (given (text message.now) out.old) out.old }
    ensures size { size.new ≡ if_memory result (length (text message.now)) size.old }
    ensures counted { Rises (is_want_of_memory result) memory.old memory.new }
{
    let Ok(shown) = text_of_counted(alloc, message, memory) else {
        return Errno::ENOBUFS.number();
    };
    give(&shown, out, size)
}
