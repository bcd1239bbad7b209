//! What a file reads as keeps the rules of images.

ghost use Rattle.dpx_laws.specs.Laws.{ReadImagesKeepRules};

/// The image that bytes read as has a size and a depth that are read, and all its codes, each a number of so many bits.
pub fn read_images_keep_rules()
    ensures { ReadImagesKeepRules }
{}
