// Cuts an input into pieces of the size of a frame, in whatever chunks it comes.
ghost use Rattle.std.specs.Prelude.{◌≡◌, ◌+◌, ◌≤◌, ◌++◌, length};

use crate::frame::FRAME_SIZE;
use arrayvec::ArrayVec;
use std::marker::Model;

/// Cuts an input into pieces of the size of a frame, in whatever chunks it comes. It keeps one piece at a time.
#[derive(Drop)]
pub struct PieceReader {
    bytes: ArrayVec<u8, FRAME_SIZE>,
    ended: bool,
}

impl Model for PieceReader {
    ghost use Rattle.std.specs.Prelude.{◌≡◌, ◌<◌, false, length};
    ghost use Rattle.ss_frames.specs.PieceState.{PieceState};
    ghost use Rattle.ss_frames.specs.declared.frame.TheConstants.{FRAME_SIZE};

    ghost Value = { PieceState };

    ghost view = { λ r. record { bytes = r.bytes.items; ended = r.ended } };

    ghost invariant = { λ r. r.ended ≡ false → length r.bytes.items < FRAME_SIZE };
}

// Adds bytes to a piece that has room for them.
fn extend(bytes: &mut ArrayVec<u8, FRAME_SIZE>, more: &[u8])
    requires { length bytes.old.items + length more.now ≤ FRAME_SIZE }
    ensures { bytes.new.items ≡ bytes.old.items ++ more.now }
{
    if bytes.try_extend_from_slice(more).is_err() {
        unreachable!();
    }
}

impl PieceReader {
    ghost use Rattle.std.specs.Prelude.{◌≡◌, ◌↔◌, ◌-◌, ◌<◌, ◌≤◌, ◌++◌, ◌==◌, ℕ, List, [], length, take, min, true, false};
    ghost use Rattle.ss_frames.specs.Pieces.{pieces, pieces_so_far};
    ghost use Rattle.ss_frames.specs.PieceState.{piece_under_way, HasReadPieces, TellsPiece};

    /// A reader at the front of an input.
    pub fn new() -> PieceReader
        ensures state { result ≡ record { bytes = []; ended = false } }
        ensures taken { HasReadPieces [] result }
    {
        PieceReader {
            bytes: ArrayVec::new(),
            ended: false,
        }
    }

    // Leaves a piece that has ended, for the next one.
    fn begin(&mut self)
        ensures state { self.new ≡ record { bytes = piece_under_way self.old; ended = false } }
        ensures room { length self.new.bytes < FRAME_SIZE }
    {
        if self.ended {
            self.bytes.clear();
            self.ended = false;
        }
    }

    /// Takes bytes of the chunk up to the end of the piece that is under way, at least one where there is one. It answers how many,
    /// and whether the piece has ended.
    pub fn feed(&mut self, chunk: &[u8]) -> (usize, bool)
        ensures count { result.0 ≡ min (FRAME_SIZE - length (piece_under_way self.old)) (length chunk.now) }
        ensures some { 0 < length chunk.now → 0 < result.0 }
        ensures bytes { self.new.bytes ≡ piece_under_way self.old ++ take result.0 chunk.now }
        ensures ended { result.1 ≡ (length self.new.bytes == FRAME_SIZE) }
        ensures state { self.new.ended ≡ result.1 }

        // Whatever the chunks were, the pieces are those of the input.
        ensures taken { (input : List ℕ) → HasReadPieces input self.old → HasReadPieces (input ++ take result.0 chunk.now) self.new }
        ensures pieces { (input : List ℕ) → HasReadPieces input self.old →
            TellsPiece (pieces_so_far input) (pieces_so_far (input ++ take result.0 chunk.now)) result.1 self.new }
    {
        self.begin();
        let room = FRAME_SIZE - self.bytes.len();
        let count = room.min(chunk.len());
        extend(&mut self.bytes, &chunk[..count]);
        self.ended = self.bytes.len() == FRAME_SIZE;
        (count, self.ended)
    }

    /// Ends the last piece of the input, where bytes of one were fed.
    pub fn finish(&mut self) -> bool
        ensures none { result ≡ false ↔ (piece_under_way self.old ≡ []) }
        ensures bytes { self.new.bytes ≡ piece_under_way self.old }
        ensures short { length self.new.bytes < FRAME_SIZE }
        ensures state { self.new.ended ≡ result }
        ensures pieces { (input : List ℕ) → HasReadPieces input self.old →
            TellsPiece (pieces_so_far input) (pieces input) result self.new }
    {
        self.begin();
        self.ended = !self.bytes.is_empty();
        self.ended
    }

    /// The piece that has ended: as many bytes as a frame has, and fewer only at the end of the input.
    pub fn bytes(&self) -> &[u8]
        requires { self.now.ended ≡ true }
        ensures value { result.now ≡ self.now.bytes }
        ensures short { length result.now ≤ FRAME_SIZE }
    {
        self.bytes.as_slice()
    }
}
