// The theory of the walk. Each function promises a family of theorems, at any type of cells, and does nothing else.
ghost use Rattle.walk.specs.Bounds.{Bounds};
ghost use Rattle.walk.specs.Lawful.{LawfulLists};
ghost use Rattle.walk.specs.Listings.{PicksEnumerated, PicksListed};
ghost use Rattle.walk.specs.Nexts.{Nexts};
ghost use Rattle.walk.specs.Places.{PlaceListsLawful};
ghost use Rattle.walk.specs.Steps.{Machines};
ghost use Rattle.walk.specs.Walks.{Turns, Walks};

// A place list never repeats a cell, and only grows at its end. The cells of a lawful pick list stand at their places to the end.
pub fn place_lists_grow<T>(_at: &T)
    ensures places { PlaceListsLawful T }
    ensures picks { LawfulLists T }
{}

// The walk takes the places in turn. It leads from the connected sets to the lawful pick lists, and back: each has one.
pub fn walks_give_pick_lists<T>(_at: &T)
    ensures in_turn { Turns T }
    ensures right { Walks T }
    ensures bounded { Bounds T }
{}

// The lawful pick lists of a length are listed in ascending order, and with them the connected sets, each once.
pub fn listings_are_whole<T>(_at: &T)
    ensures listed { PicksListed T }
    ensures enumerated { PicksEnumerated T }
    ensures following { Nexts T }
{}

// Each step of the listing machine keeps what is still to list, and makes the measure less.
pub fn steps_list_the_rest<T>(_at: &T)
    ensures { Machines T }
{}
