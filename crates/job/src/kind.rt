// The rule sets that a part of a job may have.
#[derive(Clone, Copy, PartialEq, Eq, Debug)]
pub enum Kind {
    Tree,
    Snort,
}
