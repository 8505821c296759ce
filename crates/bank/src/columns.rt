use encoding::PART_LIMIT;
use spreading::{ROW_LIMIT, Shape};
use thermographs::{CORNER_LIMIT, Figures};

// So many rows and corners.
#[derive(Clone, Copy)]
pub struct Extent {
    pub rows: u16,
    pub turns: u16,
}

// The columns of a bank. The parts stand one behind the other, and `starts` tells what stands before
// each; the figures of a part count corners from where its own begin. What is not used is blank.
// Fixed arrays, since a bank allocates nothing; columns, since each pass of a seating writes one in
// place.
#[derive(Drop)]
pub struct Columns {
    pub shapes: [Shape; ROW_LIMIT],
    pub figures: [Figures; ROW_LIMIT],
    pub corners: [u32; CORNER_LIMIT],
    pub starts: [Extent; PART_LIMIT],
    pub parts: u8,
    pub used: Extent,
}
