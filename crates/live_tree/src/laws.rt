ghost use Rattle.live_tree.specs.Laws.{MarksAreGivenBack, TakenBackTogether};

/// Rolling back gives what stood at the mark, however many calls came after it.
pub fn marks_are_given_back()
    ensures { MarksAreGivenBack }
{}

/// What some calls led to, and then others, can be taken back as a whole.
pub fn calls_are_taken_back()
    ensures { TakenBackTogether }
{}
