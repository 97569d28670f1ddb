ghost use Rattle.search_tree.specs.Laws.{EndedSearchLaw, SearchBoundLaw, StoppedSearchLaw};

/// What a search proves: where no place is open, its nodes are a proof tree; where one is and all nodes were tested, they are a
/// wall; and its bound holds.
pub fn searches_are_walls()
    ensures ended { EndedSearchLaw }
    ensures stopped { StoppedSearchLaw }
    ensures bound { SearchBoundLaw }
{}
