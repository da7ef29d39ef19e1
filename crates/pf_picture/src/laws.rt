ghost use Rattle.pf_picture.specs.Examples.{WorkedPictures};

/// The pictures of the worked examples, byte for byte.
pub fn worked_examples_are_drawn()
    ensures { WorkedPictures }
{}
