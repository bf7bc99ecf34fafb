// Condacts that take their first parameter from a flag.

ghost use Rattle.std.specs.Prelude.{◌≡◌, true, IfSome};
ghost use Rattle.paw_base.specs.Condacts.{first_kind, plain_code};
ghost use Rattle.paw_base.specs.inner.Condacts.{IsCode, IsPlainCode};
ghost use Rattle.paw_game.specs.Valid.{is_argument};
ghost use Rattle.paw_game.specs.inner.Valid.{is_right};
ghost use Rattle.paw_effects.specs.Holds.{is_condition};
ghost use Rattle.paw_effects.specs.Indirect.{as_plain};
ghost use Rattle.paw_world.specs.World.{flag};

use paw_base::codes::INDIRECT;
use paw_base::parts::Condact;
use paw_base::places::NOT_CREATED_PLACE;
use paw_base::rows::{ParamKind, plain_code, plain_kinds};
use paw_game::tables::Tables;
use paw_world::world::World;

// Whether a value that arises in play follows the rule of this kind.
fn is_argument<T: Tables>(tables: &T, kind: ParamKind, value: u8) -> bool
    ensures value { result ≡ is_argument (T.game tables.now) kind value }
{
    let counts = tables.counts();
    let number = u16::from(value);
    match kind {
        ParamKind::Absent => value == 0,
        ParamKind::Location => number < counts.locations,
        ParamKind::Place => number < counts.locations || value >= NOT_CREATED_PLACE,
        ParamKind::Object => number < counts.objects,
        ParamKind::Message => number < counts.messages,
        ParamKind::System => number < counts.system,
        ParamKind::Table => number < counts.tables,
        ParamKind::Flag | ParamKind::Number => true,
        ParamKind::Adverb | ParamKind::Noun | ParamKind::Adjective | ParamKind::Preposition => true,
    }
}

// Whether a value follows the rule of what the first parameter of this code's plain one names. It is a function of its
// own, and cold, because few condacts of a game are indirect: the loop that reads them then keeps what it needs in
// registers.
#[cold]
#[inline(never)]
fn is_first_argument<T: Tables>(tables: &T, code: u8, value: u8) -> bool
    requires code { IsCode code }
    ensures value { result ≡ is_argument (T.game tables.now) (first_kind (plain_code code)) value }
{
    let (first, _) = plain_kinds(code);
    is_argument(tables, first, value)
}

/// The plain condact that is carried out: an indirect one takes the value of its flag. None exactly where that value
/// breaks the rule of what the plain one's first parameter names.
pub(crate) fn as_plain<T: Tables>(tables: &T, world: &World, c: Condact) -> Option<Condact>
    requires condact { is_right (T.game tables.now) c ≡ true }
    ensures value { result ≡ as_plain (T.game tables.now) world.now c }
    ensures plain { IfSome result (λ d. IsPlainCode d.code) }
    ensures right { IfSome result (λ d. is_right (T.game tables.now) d ≡ true) }
    ensures kind { IfSome result (λ d. is_condition d ≡ is_condition c) }
{
    let code = plain_code(c.code);
    if c.code < INDIRECT {
        // The same code, put in again: so the compiler knows that it is a plain one, below 128, and a choice by it
        // needs no bound of its own.
        return Some(Condact { code, ..c });
    }
    let value = world.flag(c.a);
    if is_first_argument(tables, c.code, value) {
        Some(Condact {
            code,
            a: value,
            b: c.b,
        })
    } else {
        None
    }
}
