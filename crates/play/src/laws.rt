ghost use Rattle.play.specs.Behind.{OpeningTold, PlayTold};

// The record that is opened on a bank has the story of its seatings behind it.
pub fn opening_told()
    ensures { OpeningTold }
{}

// With a story behind the record, each call lengthens it, and floor, bracket and advice are what the
// promise says of it.
pub fn play_told()
    ensures { PlayTold }
{}
