ghost use Rattle.std.specs.Prelude.{ℕ, ◌+◌, ◌≤◌, length};

// What is left to read of a job, and the number of its first line.
#[derive(Drop)]
pub struct Reader<'a> {
    pub rest: &'a [u8],
    pub line: u32,
    ghost short: { line + length rest.now ≤ 16385 },
}
