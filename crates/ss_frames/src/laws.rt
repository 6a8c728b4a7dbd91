// Laws over frames, their spellings and the pieces of an input, each the contract of a function that does nothing.
ghost use Rattle.std.specs.Prelude.{◌≡◌, ◌≢◌, ◌↔◌, ℕ, ◌<◌, List, ◌++◌, length, map, None, Some};
ghost use Rattle.std.specs.List.{All, flat_map};
ghost use Rattle.ss_frames.specs.declared.frame.TheConstants.{FRAME_SIZE};
ghost use Rattle.ss_frames.specs.Frame.{FrameState, IsValidFrame, SpellsFrame, frame_in, frame_spelled};
ghost use Rattle.ss_frames.specs.Pieces.{pieces, pieces_so_far, unended_piece};

/// What is decoded is the frame that the bytes spell, and no bytes that spell a frame are passed over.
pub fn decoded_is_what_is_spelled()
    ensures { (bytes : List ℕ) (f : FrameState) → (frame_in bytes ≡ Some f) ↔ SpellsFrame bytes f }
{}

/// A valid frame that was spelled is decoded again.
pub fn spelling_reads_back()
    ensures { (f : FrameState) → IsValidFrame f.number f.event → frame_in (frame_spelled f) ≡ Some f }
{}

/// Valid frames with one spelling are one frame.
pub fn one_spelling()
    ensures { (f g : FrameState) → IsValidFrame f.number f.event → IsValidFrame g.number g.event → frame_spelled f ≡ frame_spelled g → f ≡ g }
{}

/// Every valid frame is spelled by as many bytes as a frame has.
pub fn spellings_have_one_size()
    ensures { (f : FrameState) → IsValidFrame f.number f.event → length (frame_spelled f) ≡ FRAME_SIZE }
{}

/// More bytes or fewer spell no frame.
pub fn other_lengths_spell_nothing()
    ensures { (bytes : List ℕ) → length bytes ≢ FRAME_SIZE → frame_in bytes ≡ None }
{}

/// The pieces of an input, one after the other, are the input.
pub fn pieces_give_the_input_back()
    ensures whole { (input : List ℕ) → flat_map (λ piece. piece) (pieces_so_far input) ++ unended_piece input ≡ input }
    ensures all { (input : List ℕ) → flat_map (λ piece. piece) (pieces input) ≡ input }
{}

/// Each piece has the size of a frame, but for the last where the input ends within it.
pub fn pieces_have_the_size_of_a_frame()
    ensures whole { (input : List ℕ) → All (λ piece. length piece ≡ FRAME_SIZE) (pieces_so_far input) }
    ensures last { (input : List ℕ) → length (unended_piece input) < FRAME_SIZE }
{}

/// An input of valid frames, one after the other, is cut into these.
pub fn frames_are_cut_apart()
    ensures { (frames : List FrameState) → All (λ f. IsValidFrame f.number f.event) frames →
        pieces (flat_map frame_spelled frames) ≡ map frame_spelled frames }
{}
