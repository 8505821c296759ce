// The known figures of the subject.

#![tactic(auto)]

ghost use Rattle.figures.specs.Known.{KnownFigures};

// Means, temperatures, corners, floors and brackets of the worked examples, and Snort on a path.
pub fn known_figures()
    ensures { KnownFigures }
{}
