// The most bytes that each condact prints. Numbers stop at the greatest of 32 bits.

ghost use Rattle.std.specs.Prelude.{◌≡◌};
ghost use Rattle.paw_base.specs.Condacts.{is_indirect, plain_code};
ghost use Rattle.paw_check.specs.inner.Own.{kind_of, named_in, text_in};

use crate::sums::PerByte;
use paw_base::codes::INDIRECT;
use paw_base::messages::{
    AGAIN_MESSAGE, IMPOSSIBLE_MESSAGE, KEY_MESSAGE, OK_MESSAGE, QUIT_MESSAGE,
};
use paw_base::parts::Condact;
use paw_base::rows::may_be_indirect;

/// What a condact prints at most: nothing, a byte, a flag's value, a sign, what an action on an object says, the
/// inventory, the number of turns, the score, the objects here or those at a place, a system message as it is or with a
/// newline, or the text that its first parameter names: a message as it is or with a newline, or a system message.
#[derive(Clone, Copy, Drop, PartialEq, Eq, Debug)]
pub(crate) enum Printed {
    Nothing,
    Newline,
    Flag,
    Sign,
    Action,
    Inventory,
    Turns,
    Score,
    Here,
    There,
    Put(u8),
    Said(u8),
    Message,
    MessageLine,
    System,
}

use Printed::{
    Action, Flag, Here, Inventory, Message, MessageLine, Newline, Nothing, Put, Said, Score, Sign,
    System, There, Turns,
};

/// What the condacts of the plain codes print.
static PRINTED: [Printed; 108] = [
    Nothing, // AT
    Nothing, // NOTAT
    Nothing, // ATGT
    Nothing, // ATLT
    Nothing, // PRESENT
    Nothing, // ABSENT
    Nothing, // WORN
    Nothing, // NOTWORN
    Nothing, // CARRIED
    Nothing, // NOTCARR
    Nothing, // CHANCE
    Nothing, // ZERO
    Nothing, // NOTZERO
    Nothing, // EQ
    Nothing, // NOTEQ
    Nothing, // GT
    Nothing, // LT
    Nothing, // SAME
    Nothing, // NOTSAME
    Nothing, // ADJECT1
    Nothing, // ADVERB
    Nothing, // PREP
    Nothing, // NOUN2
    Nothing, // ADJECT2
    Nothing, // ISAT
    Nothing, // ISNOTAT
    Nothing, // TIMEOUT
    Put(QUIT_MESSAGE), // QUIT
    Nothing, // MOVE
    Inventory, // INVEN
    Nothing, // DESC
    Put(AGAIN_MESSAGE), // END
    Nothing, // DONE
    Nothing, // NOTDONE
    Said(OK_MESSAGE), // OK
    Put(KEY_MESSAGE), // ANYKEY
    Nothing, // SAVE
    Said(IMPOSSIBLE_MESSAGE), // LOAD
    Nothing, // RAMSAVE
    Nothing, // RAMLOAD
    Turns, // TURNS
    Score, // SCORE
    Nothing, // DROPALL
    Action, // AUTOG
    Action, // AUTOD
    Action, // AUTOW
    Action, // AUTOR
    Action, // AUTOP
    Action, // AUTOT
    Nothing, // GOTO
    Message, // MES
    MessageLine, // MESSAGE
    System, // SYSMESS
    Newline, // NEWLINE
    Flag, // PRINT
    Action, // GET
    Action, // DROP
    Action, // WEAR
    Action, // REMOVE
    Action, // PUTIN
    Action, // TAKEOUT
    Nothing, // CREATE
    Nothing, // DESTROY
    Nothing, // SWAP
    Nothing, // PLACE
    Nothing, // PUTO
    Nothing, // SET
    Nothing, // CLEAR
    Nothing, // PLUS
    Nothing, // MINUS
    Nothing, // LET
    Nothing, // ADD
    Nothing, // SUB
    Nothing, // RANDOM
    Nothing, // COPYOO
    Nothing, // COPYOF
    Nothing, // COPYFO
    Nothing, // COPYFF
    Here, // LISTOBJ
    There, // LISTAT
    Nothing, // WHATO
    Nothing, // WEIGH
    Nothing, // WEIGHT
    Nothing, // ABILITY
    Nothing, // PARSE
    Nothing, // PROCESS
    Nothing, // DOALL
    Nothing, // PROMPT
    Nothing, // TIME
    Nothing, // NEWTEXT
    Nothing, // RESET
    Nothing, // EXTERN
    Sign, // PICTURE
    Sign, // GRAPHIC
    Sign, // BEEP
    Sign, // CLS
    Sign, // PAPER
    Sign, // INK
    Sign, // BORDER
    Sign, // CHARSET
    Sign, // PROTECT
    Sign, // SAVEAT
    Sign, // BACKAT
    Sign, // PRINTAT
    Sign, // PAUSE
    Sign, // MODE
    Sign, // LINE
    Sign, // INPUT
];

/// Whether the first parameter of a condact with this code comes from a flag.
#[tactic(auto, unfolding(paw_base::specs::Condacts::is_indirect))]
pub(crate) fn is_indirect(code: u8) -> bool
    ensures value { result ≡ is_indirect code }
{
    code >= INDIRECT && may_be_indirect(code - INDIRECT)
}

/// The code of the plain condact.
#[tactic(auto, unfolding(paw_base::specs::Condacts::is_indirect))]
pub(crate) fn plain_code(code: u8) -> u8
    ensures value { result ≡ plain_code code }
{
    if code >= INDIRECT && may_be_indirect(code - INDIRECT) {
        code - INDIRECT
    } else {
        code
    }
}

// What a condact with this code prints.
fn kind_of(code: u8) -> Printed
    ensures value { result ≡ kind_of code }
{
    match PRINTED.get(plain_code(code) as usize) {
        Some(kind) => *kind,
        None => Nothing,
    }
}

/// The most bytes of each system message and of each message, of any of them, and of what condacts print that depends
/// on the game alone.
#[derive(Drop)]
pub(crate) struct Prints {
    pub(crate) system: PerByte,
    pub(crate) messages: PerByte,
    pub(crate) any_system: u32,
    pub(crate) any_message: u32,
    pub(crate) action: u32,
    pub(crate) inventory: u32,
    pub(crate) turns: u32,
    pub(crate) score: u32,
    pub(crate) here: u32,
    pub(crate) there: u32,
}

// The most bytes of the text that a condact's first parameter names: one of these or, where a flag names it, any.
fn most_named(texts: &PerByte, any: u32, condact: &Condact) -> u32
    ensures value { result ≡ named_in texts.now any condact.now }
{
    if is_indirect(condact.code) {
        any
    } else {
        texts[usize::from(condact.a)]
    }
}

impl Prints {
    /// The most bytes that a condact prints.
    pub(crate) fn of(&self, condact: &Condact) -> u32
        ensures value { result ≡ text_in self.now condact.now }
    {
        match kind_of(condact.code) {
            Nothing => 0,
            Newline => 1,
            Flag => 3,
            Sign => 20,
            Action => self.action,
            Inventory => self.inventory,
            Turns => self.turns,
            Score => self.score,
            Here => self.here,
            There => self.there,
            Put(message) => self.system[usize::from(message)],
            Said(message) => self.system[usize::from(message)].saturating_add(1),
            Message => most_named(&self.messages, self.any_message, condact),
            MessageLine => most_named(&self.messages, self.any_message, condact).saturating_add(1),
            System => most_named(&self.system, self.any_system, condact),
        }
    }
}
