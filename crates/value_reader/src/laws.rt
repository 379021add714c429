//! Laws of images, each the contract of a call that does nothing.
ghost use Rattle.layout_values.specs.Outcomes.{OneValue};
ghost use Rattle.value_reader.specs.ImageLaws.{LevelsSuffice, ImagesSuffice, NodesAgree};

/// No two values share an image.
pub fn one_value()
    ensures { OneValue }
{}

/// Where law 2 holds, levels beyond those of the depth change nothing, whatever the walk tells of a type.
pub fn levels_suffice<Told>()
    // What is done with all that a type reaches comes out the same.
    ensures walks { LevelsSuffice Told }

    // The same values have their images.
    ensures images { ImagesSuffice }
{}

/// Where laws 2 and 4 hold, a value whose image fills a part has as many nodes as its type reaches there.
pub fn nodes_of_the_value()
    ensures { NodesAgree }
{}
