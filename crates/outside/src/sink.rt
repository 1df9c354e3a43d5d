// Where frames go.
ghost use Rattle.std.specs.Prelude.{◌≡◌, ℕ, List, Option, Bool, true, false, ◌++◌, ◌∷◌, [], length, ◌<◌, if◌then◌else◌, is_ok};
ghost use Rattle.outside.specs.Causes.{HasCause};
ghost use Rattle.outside.specs.Sink.{Written, begun, with_end, Changes, Puts};

use crate::Failed;

/// A place for frames, one after another: each is begun by its name, put piece by piece, and ended.
///
/// It may tell the entries that were written. It always tells whether a frame is open. Its count of faults never falls.
pub trait FrameSink {
    /// The entries that were written, where the sink tells them.
    ghost written: { Self → Option (List Written) };

    /// Whether a frame is open.
    ghost is_open: { Self → Bool };

    /// How often the sink has failed.
    ghost faults: { Self → ℕ };

    /// Opens a frame of this name: an entry with no bytes. No frame may be open.
    ///
    /// A failed call leaves the entries as they were.
    fn begin(&mut self, name: &str) -> Result<(), Failed>
        requires { is_open self.old ≡ false }
        ensures written { Changes (λ ws. ws ++ begun name.now ∷ []) result (written self.old) (written self.new) }
        ensures open { is_open self.new ≡ is_ok result }
        ensures cause { HasCause (faults self.old) (faults self.new) result };

    /// Appends a front of the piece to the open frame, and answers how many bytes it took, at least one.
    ///
    /// A frame must be open, and the piece have a byte. A failed call may have appended a front of the piece.
    fn put(&mut self, piece: &[u8]) -> Result<usize, Failed>
        requires open { is_open self.old ≡ true }
        requires some { 0 < length piece.now }
        ensures written { Puts piece.now result (written self.old) (written self.new) }
        ensures open { is_open self.new ≡ true }
        ensures cause { HasCause (faults self.old) (faults self.new) result };

    /// Ends the open frame. A frame must be open.
    ///
    /// A failed call leaves the frame open and the entries as they were.
    fn end(&mut self) -> Result<(), Failed>
        requires { is_open self.old ≡ true }
        ensures written { Changes with_end result (written self.old) (written self.new) }
        ensures open { is_open self.new ≡ (if is_ok result then false else true) }
        ensures cause { HasCause (faults self.old) (faults self.new) result };
}
