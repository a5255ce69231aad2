ghost use Rattle.patch_core.specs.Laws.{InverseLeadsBack, ChangesAreTakenBack, PrintedReadsBack, ReadsOnce};

/// Where a patch fits, its inverse fits what it leads to, and leads back.
pub fn inverse_leads_back()
    ensures { InverseLeadsBack }
{}

/// Where patches fit in turn, their inverses, last first, fit in turn and lead back.
pub fn changes_are_taken_back()
    ensures { ChangesAreTakenBack }
{}

/// What is printed of patches is read as these patches, but for their old values.
pub fn printed_reads_back()
    ensures { PrintedReadsBack }
{}

/// A value is read as one list of patches at most.
pub fn reads_once()
    ensures { ReadsOnce }
{}
