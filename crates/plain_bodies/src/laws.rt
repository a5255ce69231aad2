ghost use Rattle.plain_bodies.specs.Laws.{ReadExpressionsArePlain, ReadBodiesArePlain};

/// An expression that is read of a value whose keys are in order has plain constants.
pub fn read_expressions_are_plain()
    ensures { ReadExpressionsArePlain }
{}

/// So has each expression of the body of an action that is read of one.
pub fn read_bodies_are_plain()
    ensures { ReadBodiesArePlain }
{}
