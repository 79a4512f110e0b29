//! The names of a route's flags.
ghost use Rattle.std.specs.Prelude.{◌≡◌, ◌++◌, IfOk, OnOk, is_err, true};
ghost use Rattle.memory.specs.Refusing.{Rises};
ghost use Rattle.message_text.specs.Names.{first_after, flag_names, high_flag_names, low_flag_names, name_of_bit, named, names, names_from, still_first};
ghost use Rattle.world_words.specs.Flags.{flags_word};

use lab_text::Text;
use memory::Memory;
use route_msgs::flags::{
    RTF_BLACKHOLE, RTF_CLONING, RTF_DONE, RTF_DYNAMIC, RTF_GATEWAY, RTF_HOST, RTF_LLINFO, RTF_MASK,
    RTF_MODIFIED, RTF_PROTO1, RTF_PROTO2, RTF_REJECT, RTF_STATIC, RTF_UP, RTF_XRESOLVE,
};
use std::alloc::AllocError;

/// Appends the names of a route's flags with commas between them, as `UP,GATEWAY,STATIC`, and `none` where none is set
/// that has a name. `Err`: there is no memory, which is counted.
#[tactic(auto, using(crate::proofs::FlagNames::none_named))]
pub fn put_flag_names(text: &mut Text, flags: u16, memory: &mut Memory) -> Result<(), AllocError>
    ensures put { OnOk result (text.new ≡ text.old ++ flags_word flags) }
    ensures counted { Rises (is_err result) memory.old memory.new }
{
    let first = put_names(text, flags, memory)?;
    if !first {
        return Ok(());
    }
    text.put(b"none", memory)?;
    Ok(())
}

/// Appends the names of a route's flags, and answers whether none of them is set.
#[tactic(auto, using(crate::proofs::FlagNames::names_joined, crate::proofs::FlagNames::first_joined))]
fn put_names(text: &mut Text, flags: u16, memory: &mut Memory) -> Result<bool, AllocError>
    ensures put { IfOk result (λ _. text.new ≡ text.old ++ names flag_names flags) }
    ensures first { IfOk result (λ now. now ≡ first_after true flag_names flags) }
    ensures counted { Rises (is_err result) memory.old memory.new }
{
    let first = put_low_names(text, flags, memory)?;
    let first = put_high_names(text, first, flags, memory)?;
    Ok(first)
}

/// Appends the name of a flag where it is set, behind a comma where it isn't the first, and answers whether the next
/// one is the first.
#[tactic(auto, unfolding(message_text::specs::Names::name_of_bit, message_text::specs::Names::still_first))]
fn put_name(
    text: &mut Text,
    first: bool,
    flags: u16,
    flag: u16,
    name: &[u8],
    memory: &mut Memory,
) -> Result<bool, AllocError>
    ensures put { IfOk result (λ _. text.new ≡ text.old ++ name_of_bit first flags (named flag name.now)) }
    ensures first { IfOk result (λ now. now ≡ still_first first flags (named flag name.now)) }
    ensures counted { Rises (is_err result) memory.old memory.new }
{
    if flags & flag == 0 {
        return Ok(first);
    }
    if !first {
        text.put(b",", memory)?;
    }
    text.put(name, memory)?;
    Ok(false)
}

/// Appends the names of the lower half of a route's flags, and answers whether none of them is set.
#[tactic(auto, unfolding(message_text::specs::Names::names_from, message_text::specs::Names::first_after, message_text::specs::Names::low_flag_names))]
fn put_low_names(text: &mut Text, flags: u16, memory: &mut Memory) -> Result<bool, AllocError>
    ensures put { IfOk result (λ _. text.new ≡ text.old ++ names_from true low_flag_names flags) }
    ensures first { IfOk result (λ now. now ≡ first_after true low_flag_names flags) }
    ensures counted { Rises (is_err result) memory.old memory.new }
{
    let first = put_name(text, true, flags, RTF_UP, b"UP", memory)?;
    let first = put_name(text, first, flags, RTF_GATEWAY, b"GATEWAY", memory)?;
    let first = put_name(text, first, flags, RTF_HOST, b"HOST", memory)?;
    let first = put_name(text, first, flags, RTF_REJECT, b"REJECT", memory)?;
    let first = put_name(text, first, flags, RTF_DYNAMIC, b"DYNAMIC", memory)?;
    let first = put_name(text, first, flags, RTF_MODIFIED, b"MODIFIED", memory)?;
    let first = put_name(text, first, flags, RTF_DONE, b"DONE", memory)?;
    let first = put_name(text, first, flags, RTF_MASK, b"MASK", memory)?;
    Ok(first)
}

/// Appends the names of the others, behind a comma where no one is the first, and answers whether the next one is the
/// first.
#[tactic(auto, unfolding(message_text::specs::Names::names_from, message_text::specs::Names::first_after, message_text::specs::Names::high_flag_names))]
fn put_high_names(
    text: &mut Text,
    first: bool,
    flags: u16,
    memory: &mut Memory,
) -> Result<bool, AllocError>
    ensures put { IfOk result (λ _. text.new ≡ text.old ++ names_from first high_flag_names flags) }
    ensures first { IfOk result (λ now. now ≡ first_after first high_flag_names flags) }
    ensures counted { Rises (is_err result) memory.old memory.new }
{
    let first = put_name(text, first, flags, RTF_CLONING, b"CLONING", memory)?;
    let first = put_name(text, first, flags, RTF_XRESOLVE, b"XRESOLVE", memory)?;
    let first = put_name(text, first, flags, RTF_LLINFO, b"LLINFO", memory)?;
    let first = put_name(text, first, flags, RTF_STATIC, b"STATIC", memory)?;
    let first = put_name(text, first, flags, RTF_BLACKHOLE, b"BLACKHOLE", memory)?;
    let first = put_name(text, first, flags, RTF_PROTO2, b"PROTO2", memory)?;
    let first = put_name(text, first, flags, RTF_PROTO1, b"PROTO1", memory)?;
    Ok(first)
}
