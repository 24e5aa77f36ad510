// What the cache is for: each function carries theorems, and does nothing else.
ghost use Rattle.cache.specs.Laws.{KeptIsFound, OthersStay, SixteenTell, FoundIsThere, EmptyFindsNothing, LastKept, FoundWasKept, LookUpIsFind, FindIsExact, KeepComesFirst};

/// What is found is there, and an empty cache finds nothing.
pub fn look_up_stands()
    ensures found { FoundIsThere }
    ensures empty { EmptyFindsNothing }
{}

/// What is kept is found, and what else was there still is.
pub fn keep_stands()
    ensures found { KeptIsFound }
    ensures others { OthersStay }
{}

/// The newest eight are found, and nothing else.
pub fn last_kept_stands()
    ensures last { LastKept }
    ensures among { FoundWasKept }
{}

/// The numbers of a cache are a list of entries.
pub fn entries_stands()
    ensures finds { LookUpIsFind }
    ensures keeps { KeepComesFirst }
{}

/// Versions are told apart.
pub fn versions_stands()
    ensures tell { SixteenTell }
    ensures exact { FindIsExact }
{}
