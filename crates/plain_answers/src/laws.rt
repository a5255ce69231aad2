ghost use Rattle.plain_answers.specs.Laws.{AnswersArePlain, SightsArePlain};

/// Where what is seen is plain, and the constants of all bodies are, a view that is asked and ends well answers plain
/// values; so does an expression of a statement or a condition, if its constants and what its names stand for are plain.
pub fn answers_are_plain()
    ensures { AnswersArePlain }
{}

/// What is seen of a plain labelled snapshot is plain.
pub fn sights_are_plain()
    ensures { SightsArePlain }
{}
