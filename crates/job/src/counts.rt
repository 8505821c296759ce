// The parts and the moves of a job, counted.
#[derive(Clone, Copy)]
pub struct Counts {
    pub parts: u16,
    pub moves: u16,
}
