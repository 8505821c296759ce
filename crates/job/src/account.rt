// What is told of a job whose text is sound.
#[derive(Clone, Copy, PartialEq, Eq, Debug)]
pub struct Account {
    pub lines: u32,
    pub parts: u16,
    pub moves: u16,
}
