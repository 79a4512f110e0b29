//! How far a text is converted: piece by piece, as its bytes come.
ghost use Rattle.std.specs.Prelude.{◌≡◌, ◌≤◌, ◌+◌, ◌++◌, [], ◌∷◌, List, ℕ, OnErr, OnOk, is_err, length};
ghost use Rattle.memory.specs.Refusing.{Rises};
ghost use Rattle.conv_main.specs.Converted.{IsWay, converted, converted_piece, place_behind, told, told_piece};
ghost use Rattle.conv_main.specs.Pieces.{begun_piece, last_piece, whole_pieces};
ghost use Rattle.conv_main.specs.Progress.{Took};

use crate::made::Made;
use crate::pieces::is_whole;
use crate::way::{Place, Way};
use memory::Memory;
use std::alloc::{AllocError, Global};

/// The most bytes of a text.
pub(crate) const MOST_BYTES: u64 = 1 << 40;

/// How far a text is converted.
#[derive(Drop)]
pub(crate) struct Progress {
    /// What has come of a piece.
    pub(crate) piece: Vec<u8>,
    /// Where it begins.
    pub(crate) place: Place,
    /// What was made of those before it.
    pub(crate) made: Made,
}

impl Progress {
    /// Nothing has come yet.
    pub(crate) fn new(alloc: Global) -> Progress
        ensures piece { result.piece.items ≡ [] }
        ensures place { result.place ≡ record { messages = 0; offset = 0 } }
        ensures out { result.made.out.items ≡ [] }
        ensures told { result.made.told.items ≡ [] }
    {
        Progress {
            piece: Vec::new(alloc),
            place: Place {
                messages: 0,
                offset: 0,
            },
            made: Made {
                out: Vec::new(alloc),
                told: Vec::new(alloc),
            },
        }
    }

    /// Converts the pieces that these bytes end, and keeps what they begin.
    pub(crate) fn take_bytes(
        &mut self,
        alloc: Global,
        way: &Way,
        bytes: &[u8],
        memory: &mut Memory,
    ) -> Result<(), AllocError>
        requires way { IsWay way.now }
        requires number { self.old.place.messages ≤ self.old.place.offset }
        requires modest { self.old.place.offset + length self.old.piece.items + length bytes.now ≤ MOST_BYTES }
        ensures piece { OnOk result (self.new.piece.items ≡ begun_piece way.now self.old.piece.items bytes.now) }
        ensures took { OnOk result (Took way.now self.old.place self.new.place
            (whole_pieces way.now self.old.piece.items bytes.now) []
            self.old.made.out.items self.new.made.out.items self.old.made.told.items self.new.made.told.items) }
        ensures number { OnOk result (self.new.place.messages ≤ self.new.place.offset) }
        ensures count { OnOk result (self.new.place.offset + length self.new.piece.items
            ≡ self.old.place.offset + length self.old.piece.items + length bytes.now) }
        ensures err { OnErr result ((rest : List (List ℕ)) × Took way.now self.old.place self.new.place
            (whole_pieces way.now self.old.piece.items bytes.now) rest
            self.old.made.out.items self.new.made.out.items self.old.made.told.items self.new.made.told.items) }
        ensures counted { Rises (is_err result) memory.old memory.new }
    {
        'bytes: for i in 0..bytes.len() {
            memory.push(&mut self.piece, bytes[i])?;
            if is_whole(way, &self.piece) {
                self.put_piece(alloc, way, memory)?;
            }
        }
        Ok(())
    }

    /// Converts what is left at the end of the text.
    pub(crate) fn take_rest(
        &mut self,
        alloc: Global,
        way: &Way,
        memory: &mut Memory,
    ) -> Result<(), AllocError>
        requires way { IsWay way.now }
        requires number { self.old.place.messages ≤ self.old.place.offset }
        requires modest { self.old.place.offset + length self.old.piece.items ≤ MOST_BYTES }
        ensures out { OnOk result (self.new.made.out.items ≡ self.old.made.out.items
            ++ converted way.now (last_piece self.old.piece.items)) }
        ensures told { OnOk result (self.new.made.told.items ≡ self.old.made.told.items
            ++ told way.now self.old.place (last_piece self.old.piece.items)) }
        ensures err { OnErr result ((self.new.made.out.items ≡ self.old.made.out.items)
            × (self.new.made.told.items ≡ self.old.made.told.items)) }
        ensures counted { Rises (is_err result) memory.old memory.new }
    {
        if self.piece.is_empty() {
            return Ok(());
        }
        self.put_piece(alloc, way, memory)
    }

    /// Converts the piece that has come, and begins the next. Where there is no memory, nothing changes.
    fn put_piece(&mut self, alloc: Global, way: &Way, memory: &mut Memory) -> Result<(), AllocError>
        requires way { IsWay way.now }
        requires some { 1 ≤ length self.old.piece.items }
        requires number { self.old.place.messages ≤ self.old.place.offset }
        requires modest { self.old.place.offset + length self.old.piece.items ≤ MOST_BYTES }
        ensures piece { OnOk result (self.new.piece.items ≡ []) }
        ensures place { OnOk result (self.new.place ≡ place_behind way.now self.old.place self.old.piece.items) }
        ensures number { OnOk result (self.new.place.messages ≤ self.new.place.offset) }
        ensures count { OnOk result (self.new.place.offset ≡ self.old.place.offset + length self.old.piece.items) }
        ensures out { OnOk result (self.new.made.out.items ≡ self.old.made.out.items
            ++ converted_piece way.now self.old.piece.items) }
        ensures told { OnOk result (self.new.made.told.items ≡ self.old.made.told.items
            ++ told_piece way.now self.old.place self.old.piece.items) }
        ensures err { OnErr result ((self.new.place ≡ self.old.place)
            × (self.new.made.out.items ≡ self.old.made.out.items)
            × (self.new.made.told.items ≡ self.old.made.told.items)) }
        ensures counted { Rises (is_err result) memory.old memory.new }
    {
        let (out, told) = (self.made.out.len(), self.made.told.len());
        match self
            .made
            .put_piece(alloc, way, &self.place, &self.piece, memory)
        {
            Ok(is_message) => {
                self.place.messages += u64::from(is_message);
                self.place.offset += self.piece.len() as u64;
                self.piece.clear();
                Ok(())
            }
            Err(error) => {
                self.made.out.truncate(out);
                self.made.told.truncate(told);
                Err(error)
            }
        }
    }
}
