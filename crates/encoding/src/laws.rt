ghost use Rattle.encoding.specs.Laws.{RowsTellTrees};

// The rows of a bank are those of one list of trees only.
pub fn rows_tell_trees()
    ensures { RowsTellTrees }
{}
