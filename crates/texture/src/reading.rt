// A texture file read.
ghost use Rattle.std.specs.Prelude.{MatchResult};
ghost use Rattle.texture.specs.Files.{IsTexture, IsFault};

use crate::fault::TextureFault;
use crate::header::header_in;
use crate::samples::Samples;
use crate::texture::Texture;
use std::alloc::Global;

/// The texture of a file in the format PPM (P6), with one or two bytes a sample, or X1 where the bytes aren't such a file, or M11 where
/// a side passes 2,048. Comments may stand in the header wherever white space before a number may, a sample above the greatest counts
/// as the greatest, and bytes behind the samples are ignored. It takes steps and memory in proportion to the bytes.
pub fn read(alloc: Global, bytes: &[u8]) -> Result<Texture, TextureFault>
    ensures { MatchResult result (λ t. IsTexture bytes.now t) (λ fault. IsFault bytes.now fault) }
{
    let Some((head, data)) = header_in(bytes) else {
        return Err(TextureFault::X1);
    };
    if !head.is_whole(data.len()) {
        return Err(TextureFault::X1);
    }
    if head.width.max(head.height) > 2048 {
        return Err(TextureFault::M11);
    }
    let samples = Samples::new(alloc, &head, data)?;
    Ok(Texture::new(alloc, samples)?)
}
