//! Columns of a table.
ghost use Rattle.std.specs.Prelude.{◌≡◌, ◌-◌, ◌++◌, OnOk, codes, decimal, is_err, length, replicate};
ghost use Rattle.event_file.specs.Answers.{gate_word};
ghost use Rattle.lab_text.specs.Words.{column, destination_word};
ghost use Rattle.memory.specs.Refusing.{Rises};
ghost use Rattle.world_words.specs.Flags.{flag_letters};

use crate::letters::put_flag_letters;
use lab_text::Text;
use mask_table::Rank;
use memory::Memory;
use sock_addrs::{Gate, Inet};
use std::alloc::AllocError;

/// Ends the column that begins behind so many bytes of the text.
fn end_column(
    text: &mut Text,
    from: usize,
    width: usize,
    memory: &mut Memory,
) -> Result<(), AllocError>
    ensures put { OnOk result (text.new ≡ text.old ++ replicate (width - (length text.old - from)) 32 ++ codes " ") }
    ensures counted { Rises (is_err result) memory.old memory.new }
{
    text.pad(from, width, memory)?;
    text.put(b" ", memory)
}

/// Appends the destination of a route in a column.
#[tactic(auto, using(crate::proofs::ColumnsEnded::column_ended))]
pub(crate) fn put_destination_column(
    text: &mut Text,
    key: Inet,
    rank: Rank,
    width: usize,
    memory: &mut Memory,
) -> Result<(), AllocError>
    ensures put { OnOk result (text.new ≡ text.old ++ column width (destination_word key rank)) }
    ensures counted { Rises (is_err result) memory.old memory.new }
{
    let from = text.len();
    text.put_destination(key, rank, memory)?;
    end_column(text, from, width, memory)
}

/// Appends a gateway in a column.
#[tactic(auto, using(crate::proofs::ColumnsEnded::column_ended))]
pub(crate) fn put_gate_column(
    text: &mut Text,
    gate: &Gate,
    width: usize,
    memory: &mut Memory,
) -> Result<(), AllocError>
    ensures put { OnOk result (text.new ≡ text.old ++ column width (gate_word gate.now)) }
    ensures counted { Rises (is_err result) memory.old memory.new }
{
    let from = text.len();
    text.put_gate(gate, memory)?;
    end_column(text, from, width, memory)
}

/// Appends the letters of a route's flags in a column.
#[tactic(auto, using(crate::proofs::ColumnsEnded::column_ended))]
pub(crate) fn put_letters_column(
    text: &mut Text,
    flags: u16,
    width: usize,
    memory: &mut Memory,
) -> Result<(), AllocError>
    ensures put { OnOk result (text.new ≡ text.old ++ column width (flag_letters flags)) }
    ensures counted { Rises (is_err result) memory.old memory.new }
{
    let from = text.len();
    put_flag_letters(text, flags, memory)?;
    end_column(text, from, width, memory)
}

/// Appends a number in a column.
#[tactic(auto, using(crate::proofs::ColumnsEnded::column_ended))]
pub(crate) fn put_number_column(
    text: &mut Text,
    number: u64,
    width: usize,
    memory: &mut Memory,
) -> Result<(), AllocError>
    ensures put { OnOk result (text.new ≡ text.old ++ column width (decimal number)) }
    ensures counted { Rises (is_err result) memory.old memory.new }
{
    let from = text.len();
    text.put_number(number, memory)?;
    end_column(text, from, width, memory)
}
