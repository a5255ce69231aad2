ghost use Rattle.edit_core.specs.Laws.{EditsLeadToOne, EditsAreTakenBack, EditsLeadAcross, ReconcilingLeadsToTheNew, PatchesLeadToTheNew, NumbersDiffer, FirstMatchesOnce, EqualChangesNothing, LabelsFollowTypes, ReconcilingFollowsTheRules, MatchedItemsStay, ItemsAreSetAlone, LoggedEditsSayAll, LoggedBetweenIsBetween};

/// An edit that leads from a labelled snapshot leads to one alone.
pub fn edits_lead_to_one()
    ensures { EditsLeadToOne }
{}

/// The inverse of an edit leads back to the very labels.
pub fn edits_are_taken_back()
    ensures { EditsAreTakenBack }
{}

/// The edits between two labelled snapshots lead from the one to the other.
pub fn edits_lead_across()
    ensures { EditsLeadAcross }
{}

/// However items are matched, reconciling leads to the new value.
pub fn reconciling_leads_to_the_new()
    ensures { ReconcilingLeadsToTheNew }
{}

/// The patches of reconciling fit in turn, and lead to the new value at its place.
pub fn patches_lead_to_the_new()
    ensures { PatchesLeadToTheNew }
{}

/// Where each old item is matched at most once, the numbers of all nodes differ again.
pub fn numbers_differ()
    ensures { NumbersDiffer }
{}

/// The matching by the first item that is the same matches each old item at most once.
pub fn first_matches_once()
    ensures { FirstMatchesOnce }
{}

/// An equal value changes nothing, and no edits leave all as it was.
pub fn equal_changes_nothing()
    ensures { EqualChangesNothing }
{}

/// Each node has the kind that its type gives it, also after a value is set.
pub fn labels_follow_types()
    ensures { LabelsFollowTypes }
{}

/// Without labels, the edits of reconciling are the patches that its rules give for the plain values.
pub fn reconciling_follows_the_rules()
    ensures { ReconcilingFollowsTheRules }
{}

/// An old item that is the same as a new one keeps its node where it is matched with it.
pub fn matched_items_stay()
    ensures { MatchedItemsStay }
{}

/// An item that is set alone is reconciled where it is the same as the old one, and otherwise replaced.
pub fn items_are_set_alone()
    ensures { ItemsAreSetAlone }
{}

/// A logged edit leads to one snapshot and back from it, and is one patch, as its edit.
pub fn logged_edits_say_all()
    ensures { LoggedEditsSayAll }
{}

/// The edits between two labelled snapshots, told by index alone, are those that the log keeps of them.
pub fn logged_between_is_between()
    ensures { LoggedBetweenIsBetween }
{}
