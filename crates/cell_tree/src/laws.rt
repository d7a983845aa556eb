//! Laws of paths and ways, each the contract of a function that does nothing.
ghost use Rattle.cell_tree.specs.Laws.{PathGoesOn, PathDescends, MeetingIsNearest, WayLeadsDown, UpwardAreAncestors};

/// Law: the path of the root is the root alone, and that of another node is its parent's and then the node.
pub fn path_goes_on_law()
    ensures { PathGoesOn }
{}

/// Law: a path begins at the root, each next node is a child of the one before, and it ends at its node.
pub fn path_descends_law()
    ensures { PathDescends }
{}

/// Law: the node where two paths meet is on both, each node on both is on the path to it, and there is no other such node.
pub fn meeting_is_nearest_law()
    ensures { MeetingIsNearest }
{}

/// Law: the way down that is kept leads from the node where the paths meet to the end, and each of its nodes is a child of the one before.
pub fn way_leads_down_law()
    ensures { WayLeadsDown }
{}

/// Law: the nodes of a way, from its end on upward, are the ancestors of its end, one step up at each place.
pub fn upward_are_ancestors_law()
    ensures { UpwardAreAncestors }
{}
