ghost use Rattle.reconcile_core.specs.Suited.{TypesSuit};

/// The kind that types give a value suits it: a model and a map are of a record, an array of a list.
pub fn types_suit()
    ensures { TypesSuit }
{}
