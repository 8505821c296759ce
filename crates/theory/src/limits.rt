ghost use Rattle.std.specs.Prelude.{◌≡◌, pos};
ghost use Rattle.theory.specs.Limits.{greatest_height, option_limit, score_limit, unit};

// The limits of the subject as the code has them.

// Units in a point.
pub const UNIT: i32 = 4096;

// The greatest height of a tree that is seated.
pub const GREATEST_HEIGHT: u8 = 12;

// Scores lie from -SCORE_LIMIT to SCORE_LIMIT.
pub const SCORE_LIMIT: i16 = 1000;

// The most options that a side has.
pub const OPTION_LIMIT: u8 = 16;

// Each again as a function, since a constant has no contract: it says that this is the limit which the
// laws are stated over.

pub fn point_units() -> i32
    ensures { result ≡ pos unit }
{
    UNIT
}

pub fn height_limit() -> u8
    ensures { result ≡ greatest_height }
{
    GREATEST_HEIGHT
}

pub fn greatest_score() -> i16
    ensures { result ≡ pos score_limit }
{
    SCORE_LIMIT
}

pub fn most_options() -> u8
    ensures { result ≡ option_limit }
{
    OPTION_LIMIT
}
