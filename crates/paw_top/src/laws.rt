// The canonical source of a game is read as that game.

ghost use Rattle.paw_top.specs.Round.{ComesBack, LongIsTooBig, SpellsItself};

use paw_source::laws::tables_are_counted;

/// The canonical source of a valid game spells that game, where source and image stay within their limits.
pub fn canonical_spells_its_game()
    ensures spells { SpellsItself }
{
    tables_are_counted();
}

/// Compiling what was shown when an image was decompiled saves the bytes of that image, where the text is no longer
/// than a source may be.
pub fn decompiled_games_come_back()
    ensures comes_back { ComesBack }
{
    canonical_spells_its_game();
}

/// A canonical source that is longer than a source may be spells nothing.
pub fn long_canonical_sources_are_too_big()
    ensures too_big { LongIsTooBig }
{}
