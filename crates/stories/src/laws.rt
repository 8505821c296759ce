ghost use Rattle.stories.specs.Laws.{OpeningsAgree};
ghost use Rattle.stories.specs.Promise.{Promise};
ghost use Rattle.stories.specs.Worked.{WorkedStory};

// What advice, floor and bracket promise at the end of every story.
pub fn promise_holds()
    ensures { Promise }
{}

// At an opening, floor and bracket are those of the theory of sums.
pub fn openings_agree()
    ensures { OpeningsAgree }
{}

// A story in figures.
pub fn worked_story()
    ensures { WorkedStory }
{}
