// A law of the format, as the contract of a call.
ghost use Rattle.texture.specs.Files.{FilesAreOfOneImage};

/// The law of texture files: bytes are a file of one image at most, whatever its sides. So `read` has one answer that holds, but for want
/// of memory.
pub fn one_image_law()
    ensures { FilesAreOfOneImage }
{}
