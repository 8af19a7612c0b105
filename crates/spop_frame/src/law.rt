ghost use Rattle.std.specs.Prelude.{◌≡◌, ◌+◌, ◌++◌, ◌<◌, ◌≤◌, All, length, List, Some, ℕ};
ghost use Rattle.spop_frame.specs.Frame.{IsFragment, SpellsBody, SpellsFrame};
ghost use Rattle.spop_frame.specs.Head.{head_of, Whole};
ghost use Rattle.spop_frame.specs.Reading.{frame_of};
ghost use Rattle.spop_frame.specs.Writing.{frame_bytes};
ghost use Rattle.spop_frame.specs.declared.frame.Frame.{Frame};
ghost use Rattle.spop_frame.specs.declared.header.TheConstants.{LENGTH_BYTES};

/// A law, with nothing to run: a stream begins with the frame that was written to it, whatever
/// follows, where the length is within the limit and the frame is no fragment.
pub fn frame_again()
    ensures { (limit : ℕ) (bytes rest : List ℕ) (f : Frame) → SpellsFrame bytes f → length bytes ≤ limit + LENGTH_BYTES
        → (IsFragment f → ⊥) → head_of limit (bytes ++ rest) ≡ Whole f rest }
{}

/// A law, with nothing to run: a frame has one spelling.
pub fn one_frame_spelling()
    ensures { (bytes : List ℕ) (f : Frame) → SpellsFrame bytes f → bytes ≡ frame_bytes f }
{}

/// A law, with nothing to run: the frame that the bytes after a length are, as a function on lists,
/// is the one that they spell. So they are in no spelling exactly where the function finds none.
pub fn frame_is_spelled()
    ensures found { (body : List ℕ) (f : Frame) → SpellsBody body f → frame_of body ≡ Some f }
    ensures spelled { (body : List ℕ) (f : Frame) → All (λ b. b < 256) body
        → frame_of body ≡ Some f → SpellsBody body f }
{}
