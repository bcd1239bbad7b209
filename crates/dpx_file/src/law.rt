//! What holds between reading and writing. The calls here do nothing: their contracts are the laws.

ghost use Rattle.dpx_file.specs.Law.{ReadsBack, CodesStand, FieldsInPlace};

/// What is written for an image reads as that image.
pub fn reads_back()
    ensures { ReadsBack }
{}

/// Where each code of an image stands in its file.
pub fn codes_stand()
    ensures { CodesStand }
{}

/// Each field of the written header stands at its byte.
pub fn fields_in_place()
    ensures { FieldsInPlace }
{}
