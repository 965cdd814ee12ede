//! Laws of the definitions, as contracts of functions that do nothing.
ghost use Rattle.bk_image.specs.Laws.{HasOneImage, EncodesOne, FaultsExclude, HasOneFault};

/// One spelling has one image; bytes that encode an image have no fault, and those that encode none have one at most.
pub fn spellings_are_unique()
    ensures image { HasOneImage }
    ensures encoded { EncodesOne }
    ensures no_fault { FaultsExclude }
    ensures one_fault { HasOneFault }
{}
