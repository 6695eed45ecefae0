//! Laws of watches, over all changes ever and all runs.
ghost use Rattle.kapi_watch.specs.Histories.{GoesOn, IsCreation, IsRemoval, IsReplacement, NoChangeIsAHistory};
ghost use Rattle.kapi_watch.specs.Lists.{DueRebuildsList, FirstRebuildsList, FirstShownRebuildsList, ShownRebuildsList, StoreShowedTheList, StoreShowsTheList};
ghost use Rattle.kapi_watch.specs.Running.{StandsAtFirst};
ghost use Rattle.kapi_watch.specs.Runs.{ShowsWhatIsDue, StaysOverWrites, EndsAtTheCurrent};

/// While the window holds, whatever is written and whenever the watch is pumped, what was due to it is what it has
/// shown, in order, and then what is still due: no event is shown twice or left out. If it shows nothing, nothing is
/// due any more, and it has reached the current revision.
pub fn nothing_is_shown_twice_or_left_out()
    ensures due { ShowsWhatIsDue }
    ensures end { EndsAtTheCurrent }
{}

/// A running watch that was just started refines its own data.
pub fn a_watch_begins()
    ensures { StandsAtFirst }
{}

/// After a write, whose changes take the next revisions, a running watch still refines the model's watch.
pub fn writes_leave_what_a_watch_stands_for()
    ensures { StaysOverWrites }
{}

/// The events of a watch from a revision on, applied to its list at that revision, make its list now. This holds of all
/// events due to it, and of those it has shown while the window holds, once none is due. A watch that begins with the
/// present objects makes the list from nothing.
pub fn what_a_watch_shows_makes_the_list()
    ensures due { DueRebuildsList }
    ensures shown { ShownRebuildsList }
    ensures first { FirstRebuildsList }
    ensures first_shown { FirstShownRebuildsList }
{}

/// The list now is what the store lists; the list at a revision is what it listed when that was its current revision.
pub fn the_lists_are_those_of_the_store()
    ensures now { StoreShowsTheList }
    ensures at { StoreShowedTheList }
{}

/// The writes of a store make a history: no change is one, and creations, replacements and removals go on with it.
pub fn a_store_writes_a_history()
    ensures none { NoChangeIsAHistory }
    ensures creation { GoesOn IsCreation }
    ensures replacement { GoesOn IsReplacement }
    ensures removal { GoesOn IsRemoval }
{}
