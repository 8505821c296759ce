ghost use Rattle.meanings.specs.Laws.{MapsRead, PartsLawful, RowsAsSaid, TreesRead};

// The trees of rows are those that the rows say, and no others are.
pub fn rows_as_said()
    ensures { RowsAsSaid }
{}

// Every good part means a tree, and a lawful one.
pub fn parts_are_lawful()
    ensures { PartsLawful }
{}

// The buffers of a tree part that was read have the tree that the part means.
pub fn trees_are_read()
    ensures { TreesRead }
{}

// The map of a Snort part that was read has the tree that the part means.
pub fn maps_are_read()
    ensures { MapsRead }
{}
