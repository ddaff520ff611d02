//! Laws, as contracts of functions that do nothing: the check proves each by its name.
ghost use Rattle.lrc_picture.specs.Prelude.{PictureSpacingLaw, PictureInsideLaw};

/// A lane lies left of the next with its labels, and a row above the next.
pub fn picture_spacing_law()
    ensures { PictureSpacingLaw }
{}

/// Each mark of a layout lies within the picture, with the room for its label.
pub fn picture_inside_law()
    ensures { PictureInsideLaw }
{}
