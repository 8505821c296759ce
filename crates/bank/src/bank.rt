ghost use Rattle.bank.specs.Held.{Filled, Within};

use crate::columns::Columns;

// At most 8 parts, 1,024 rows and 1,024 corners. A bank always holds the rows, figures and corners of
// some trees, and nothing else.
#[derive(Drop)]
pub struct Bank {
    pub(crate) columns: Columns,
    ghost within: { Within columns },
    ghost filled: { Filled columns },
}
