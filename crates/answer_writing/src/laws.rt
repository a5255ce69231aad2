ghost use Rattle.answer_writing.specs.Placing.{NodesAreGivenInTurn};

/// An answer that holds nodes is judged in turn: its place, then its nodes, then the value that its type makes of it.
pub fn nodes_are_given_in_turn()
    ensures { NodesAreGivenInTurn }
{}
