// The verdict on a game.

ghost use Rattle.std.specs.Prelude.{◌≡◌, IfOk};
ghost use Rattle.paw_game.specs.Valid.{Valid};
ghost use Rattle.paw_check.specs.Bounds.{most_condacts, most_piece};
ghost use Rattle.paw_check.specs.Costs.{verb_may_change};
ghost use Rattle.paw_check.specs.Verdicts.{bounds};
ghost use Rattle.paw_check.specs.declared.verdict.Verdict.TheVariants as verdict;
ghost use Rattle.paw_check.specs.inner.Capped.{in_32_bits};
ghost use Rattle.paw_check.specs.inner.Verdicts.{bound_or_cause};

use crate::costs::round_cost;
use crate::own::Own;
use crate::reached::reached_from;
use crate::spots::Sought;
use crate::texts::{most_end, most_outside, prints_of};
use crate::verdict::{Cause, Verdict};
use paw_base::fault::NoRoom;
use paw_base::limits::{PIECE_LIMIT, READ_LIMIT};
use paw_base::tables::{DESCRIBED_TABLE, FRAME_TABLE, RESPONSE_TABLE};
use paw_game::game::Game;
use paw_game::parts::GameParts;
use std::alloc::Global;

/// The most readings of a turn's tables for a line: one for each of 128 phrases, and one for what was open before.
const MOST_ROUNDS: u32 = 129;

// The most condacts that are read for a piece.
fn most_condacts(alloc: Global, parts: &GameParts, changing: bool) -> Result<u32, NoRoom>
    requires valid { Valid parts.now }
    requires changing { changing ≡ verb_may_change parts.now }
    ensures value { IfOk result (λ most. most ≡ in_32_bits (most_condacts parts.now)) }
{
    let round = round_cost(alloc, parts, &Own::Condacts, changing)?;
    Ok(round.saturating_mul(MOST_ROUNDS))
}

// The most bytes of a piece.
fn most_piece(alloc: Global, parts: &GameParts, changing: bool) -> Result<u32, NoRoom>
    requires valid { Valid parts.now }
    requires changing { changing ≡ verb_may_change parts.now }
    ensures value { IfOk result (λ most. most ≡ in_32_bits (most_piece parts.now)) }
{
    let prints = prints_of(parts);
    let outside = most_outside(parts, &prints);
    let end = most_end(parts, &prints);
    let round = round_cost(alloc, parts, &Own::Text(prints), changing)?;
    let whole = round.saturating_add(outside);
    let rounds = whole.saturating_mul(MOST_ROUNDS);
    Ok(rounds.saturating_add(end))
}

// The verdict on a game that neither calls nor describes too often, by what its pieces take.
fn bound_or_cause(
    alloc: Global,
    parts: &GameParts,
    levels: u8,
    changing: bool,
) -> Result<Verdict, NoRoom>
    requires valid { Valid parts.now }
    requires changing { changing ≡ verb_may_change parts.now }
    ensures value { IfOk result (λ verdict. verdict ≡ bound_or_cause parts.now levels) }
{
    let condacts = most_condacts(alloc, parts, changing)?;
    if condacts > READ_LIMIT {
        return Ok(nowhere(Cause::Condacts));
    }
    let text = most_piece(alloc, parts, changing)?;
    if text as usize > PIECE_LIMIT {
        return Ok(nowhere(Cause::Text));
    }
    Ok(Verdict::Bound {
        levels,
        condacts,
        text,
    })
}

// The verdict that no bound is known, for a cause that lies in no single table and entry.
fn nowhere(cause: Cause) -> Verdict
    ensures value { result ≡ verdict.Unknown cause 0 0 }
{
    Verdict::Unknown {
        cause,
        table: 0,
        entry: 0,
    }
}

/// What any play of the game takes at most, with whatever routines, seed and lines; or the first cause why that isn't
/// known. The answer is the verdict on the game by its definition.
///
/// # Errors
/// NoRoom only for lack of memory.
pub fn check(alloc: Global, game: &Game) -> Result<Verdict, NoRoom>
    ensures value { IfOk result (λ verdict. verdict ≡ bounds game.now) }
{
    let parts = game.parts();
    let tables = parts.tables.as_slice();
    let reached = reached_from(
        alloc,
        parts,
        &[RESPONSE_TABLE, DESCRIBED_TABLE, FRAME_TABLE],
    )?;
    if let Some((table, entry)) = Sought::Call.spot(tables, reached.deepest.as_slice()) {
        return Ok(Verdict::Unknown {
            cause: Cause::Calls,
            table,
            entry,
        });
    }
    let described = reached_from(alloc, parts, &[DESCRIBED_TABLE, FRAME_TABLE])?;
    if let Some((table, entry)) = Sought::Description.spot(tables, described.all.as_slice()) {
        return Ok(Verdict::Unknown {
            cause: Cause::Redescribe,
            table,
            entry,
        });
    }
    let changing = Sought::VerbWriter.is_in(tables, reached.all.as_slice());
    bound_or_cause(alloc, parts, reached.levels, changing)
}
