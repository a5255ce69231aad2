ghost use Rattle.plain_views.specs.Laws.{TreeSightsArePlain, TreesAnswerPlainly};

/// What is seen of a plain tree is plain.
pub fn tree_sights_are_plain()
    ensures { TreeSightsArePlain }
{}

/// Over a plain tree, views whose bodies have plain constants answer plain values; so do expressions of statements with
/// plain constants and plain names.
pub fn trees_answer_plainly()
    ensures { TreesAnswerPlainly }
{}
