//! What holds of a file and its form.
ghost use Rattle.schema_form.specs.Laws.{PointersLead, EntriesAreTypes};

/// Each type expression of a file's form has a pointer, which leads in the file to the value that it is
/// read from.
pub fn pointers_lead()
    ensures { PointersLead }
{}

/// The entries of a file's form are the file's types under their names, in order, and its root is the
/// entry that the file names.
pub fn entries_are_types()
    ensures { EntriesAreTypes }
{}
