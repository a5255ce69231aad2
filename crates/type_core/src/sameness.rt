//! What follows of types for every table.
ghost use Rattle.type_core.specs.Sound.{TypesAreOne};

/// Finished types are fixed by their table and their root.
pub fn types_are_one()
    ensures { TypesAreOne }
{}
