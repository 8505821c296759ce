// The laws of hot sums, one function for each: its contract is the law, so that the law is proved.

ghost use Rattle.theory.specs.Figures.{WorkedFigures};
ghost use Rattle.theory.specs.Laws.{ColdIsJudged, WallsSlope, ScaffoldsMeet, WallsJoin, FiguresFit, WallsAreDrawn, DrawingIsSole, ListsTurn, SumBounds, Alone, StopsAreValues, OptionsStep, FloorNeverFalls, FloorHolds, RuleTotal, FloorIsSure, RuleKeeps, OpeningLoss, Mirror, TextbookAgrees, TextbookSumsAgree};
ghost use Rattle.theory.specs.Notes.{Certificates};

// ---- fair trees

// The test for cold positions is right, and a lawful tree of legal height that is warm is fair.
pub fn cold_is_judged()
    ensures { ColdIsJudged }
{}

// ---- walls

// A left wall falls and a right wall rises by 0 or 1 at each unit, they do not cross, and they begin at the stops.
pub fn walls_slope()
    ensures { WallsSlope }
{}

// The two scaffolds are equal at the temperature.
pub fn scaffolds_meet()
    ensures { ScaffoldsMeet }
{}

// From the temperature on both walls are the mean.
pub fn walls_join()
    ensures { WallsJoin }
{}

// No wall, mean or temperature leaves the range of the scores.
pub fn figures_fit()
    ensures { FiguresFit }
{}

// ---- corners

// A wall is its value at 0 and its corners, and begins sloped exactly when their number is odd.
pub fn walls_are_drawn()
    ensures { WallsAreDrawn }
{}

// No other start and no other rising list draw the same wall.
pub fn drawing_is_sole()
    ensures { DrawingIsSole }
{}

// What a rising list draws turns at its members and nowhere else.
pub fn lists_turn()
    ensures { ListsTurn }
{}

// ---- sums

// The score under best play lies in the bracket of the means and the greatest temperature.
pub fn sum_bounds()
    ensures { SumBounds }
{}

// A sum of one tree has the stops of the tree.
pub fn alone()
    ensures { Alone }
{}

// The stop of a sum is what its mover can make sure of, and what the other can hold him to.
pub fn stops_are_values()
    ensures { StopsAreValues }
{}

// ---- sentestrat

// What our best option gives at the ambient, and what any option gives at most.
pub fn options_step()
    ensures { OptionsStep }
{}

// No step of a play by the rule lowers the floor.
pub fn floor_never_falls()
    ensures { FloorNeverFalls }
{}

// A play by the rule ends no lower than the floor.
pub fn floor_holds()
    ensures { FloorHolds }
{}

// A play by the rule always comes to an end.
pub fn rule_total()
    ensures { RuleTotal }
{}

// At any ambient a side can make sure of its floor.
pub fn floor_is_sure()
    ensures { FloorIsSure }
{}

// The rule can be followed whatever the other plays, and makes sure of the floor.
pub fn rule_keeps()
    ensures { RuleKeeps }
{}

// At an opening the floor falls short of best play by the greatest temperature at most.
pub fn opening_loss()
    ensures { OpeningLoss }
{}

// ---- other words for the same

// With sides exchanged and scores negated, every figure is turned round.
pub fn mirrored()
    ensures { Mirror }
{}

// The definitions of the books, in the words of Left and Right, give the same stops, walls, means and temperatures.
pub fn textbook_agrees()
    ensures { TextbookAgrees }
{}

// And the same stops of a sum.
pub fn textbook_sums_agree()
    ensures { TextbookSumsAgree }
{}

// ---- figures

// What a certificate says of its tree is so.
pub fn certificates()
    ensures { Certificates }
{}

// The worked figures.
pub fn worked_figures()
    ensures { WorkedFigures }
{}
