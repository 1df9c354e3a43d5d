// A law of the definitions, as the contract of a call.
ghost use Rattle.acceptance.specs.ImageFiles.{BytesAreAsRead};

/// The law of texture files as accepted scenes have them: what is read of the bytes from their front is what the grammar says that they are,
/// that one image, no texture, or one with a side past the limit.
pub fn image_files_law()
    ensures { BytesAreAsRead }
{}
