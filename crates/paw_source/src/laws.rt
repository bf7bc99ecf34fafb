// Laws of the grammar of sources.

ghost use Rattle.paw_source.specs.inner.Laws.{CountsTables, DraftsAreValid, IsNamedRightly};
ghost use Rattle.paw_source.specs.inner.Laws.{NamesTheFirst, SpellsValidGames};

/// The first line with a fault is named.
pub fn the_first_is_named()
    ensures first { NamesTheFirst }
{}

/// What is named is the first line with a fault, or, where no line has one, the line after the last.
pub fn faults_are_named_rightly()
    ensures rightly { IsNamedRightly }
{}

/// Lines without a fault begin as many tables as were counted in advance.
pub fn tables_are_counted()
    ensures counted { CountsTables }
{}

/// Lines of a source without a fault spell a valid game where they reach table 2.
pub fn drafts_are_valid()
    ensures valid { DraftsAreValid }
{}

/// What a source spells is a valid game.
pub fn spelled_games_are_valid()
    ensures valid { SpellsValidGames }
{}
