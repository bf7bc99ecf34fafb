// What a condact answers.

ghost use Rattle.std.specs.Prelude.{◌≡◌, if◌then◌else◌};
ghost use Rattle.paw_effects.specs.declared.act.Effect.TheVariants as effect;
ghost use Rattle.paw_effects.specs.Done.{dropping_act, plainly};

/// Where a game waits: for a line, for an answer to QUIT, for an answer to END, for a key; or where it is over.
#[derive(Clone, Copy, Drop, PartialEq, Eq, Debug)]
pub enum Prompt {
    Main,
    Quit,
    Again,
    Key,
    Over,
}

/// What a condition answers. Only QUIT asks.
#[derive(Clone, Copy, Drop, PartialEq, Eq, Debug)]
pub enum Truth {
    Yes,
    No,
    Ask,
}

/// How reading goes on after an action: at the next condact; out of the table, with an action carried out or not; at
/// the description of the location; in another table, one level deeper; in a loop over the objects at a place; at a
/// prompt; with the next phrase; or not at all, since the piece would hold too much text.
#[derive(Clone, Copy, Drop, PartialEq, Eq, Debug)]
pub enum Effect {
    Go,
    Exit(bool),
    Redescribe,
    Call(u8),
    Loop(u8),
    Ask(Prompt),
    Parse,
    Spent,
}

/// What an action answers: how reading goes on, whether the rest of the line is dropped, and whether the open loop is
/// cancelled.
#[derive(Clone, Copy, Drop, PartialEq, Eq, Debug)]
pub struct Act {
    pub effect: Effect,
    pub drop_line: bool,
    pub cancel_loop: bool,
}

/// The answer of an action that goes on with this effect, with the line and the loop as they are.
pub(crate) fn plain_act(effect: Effect) -> Act
    ensures value { result ≡ plainly effect }
{
    Act {
        effect,
        drop_line: false,
        cancel_loop: false,
    }
}

/// The answer of an action that goes on with this effect, with the rest of the line dropped and the loop as it is.
pub(crate) fn dropping_act(effect: Effect) -> Act
    ensures value { result ≡ dropping_act effect }
{
    Act {
        drop_line: true,
        ..plain_act(effect)
    }
}

/// The answer of an action that goes on with this effect where its text fits, and is spent where it doesn't.
pub(crate) fn after(fits: bool, e: Effect) -> Act
    ensures value { result ≡ plainly (if fits then e else effect.Spent) }
{
    plain_act(if fits { e } else { Effect::Spent })
}
