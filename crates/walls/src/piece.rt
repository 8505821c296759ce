ghost use Rattle.walls.specs.Ranges.{Ranged};

// From one place up to `until` a function is linear: its value there, a figure in range, and whether
// it rises by one with each unit or stays. The place itself is said by the contracts and is no field:
// above the greatest place that there is no piece could end.
#[derive(Clone, Copy)]
pub struct Piece {
    pub value: i32,
    pub slope: bool,
    pub until: u32,
    pub ghost ranged: { Ranged value },
}
