use encoding::PART_LIMIT;
use stories::Turn;
use terms::Side;

// What a sheet says of a part: its mean, and its temperature unless it is ended.
#[derive(Clone, Copy)]
pub struct PartLines {
    pub mean: i32,
    pub heat: Option<u32>,
}

// What a sheet says: the first `count` parts are its parts. They need no heap, since a bank's parts
// have a limit. A sheet is Copy with public fields, which an ArrayVec is not.
#[derive(Clone, Copy)]
pub struct Sheet {
    pub side: Side,
    pub turn: Turn,
    pub count: u8,
    pub parts: [PartLines; PART_LIMIT],
    pub ambient: u32,
    pub floor: i64,
    pub low: i64,
    pub high: i64,
    pub advice: Option<(u8, u8)>,
}
