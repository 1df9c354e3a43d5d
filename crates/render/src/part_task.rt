// Which part of a scene's frames is drawn.
ghost use Rattle.std.specs.Prelude.{◌≡◌, ◌<◌, ◌^◌};
ghost use Rattle.fixed_math.specs.Hash.{hash32};
ghost use Rattle.render.specs.Parts.{tag_of};

use fixed_math::with_word;

/// Which part of a scene's frames is drawn.
#[derive(Clone, Copy)]
pub(crate) struct PartTask {
    /// The number of the part, from 0.
    pub(crate) part: u32,
    /// How many parts there are.
    pub(crate) count: u32,
    /// The side of a bucket in pixels.
    pub(crate) side: u32,
    /// The hash of the scene's bytes, each a word.
    pub(crate) hash: u32,
}

/// The hash of bytes, each a word.
pub(crate) fn hash_of(bytes: &[u8]) -> u32
    ensures { result ≡ hash32 bytes.now }
{
    bytes
        .iter()
        .fold(0, |hash, byte| with_word(hash, *byte as u32))
}

impl PartTask {
    /// The tag of the frame at that place of the scene.
    pub(crate) fn tag(&self, place: usize) -> u32
        requires { place < 2 ^ 32 }
        ensures { result ≡ tag_of self.now.hash place }
    {
        with_word(self.hash, place as u32)
    }
}
