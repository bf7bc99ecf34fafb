// The codes of the condacts, by their names. Those from INVEN on act; those before it test.
// Each line shows a condact with its parameters, and what it does: f and g are flags, l is a location, m a message, k
// and n are numbers, o and q are objects, p is a place, t a table, w a word.

/// AT l: whether the current location is l.
pub const AT: u8 = 0;

/// NOTAT l: whether the current location isn't l.
pub const NOTAT: u8 = 1;

/// ATGT n: whether the number of the current location is above n.
pub const ATGT: u8 = 2;

/// ATLT n: whether the number of the current location is below n.
pub const ATLT: u8 = 3;

/// PRESENT o: whether object o is carried, worn or here.
pub const PRESENT: u8 = 4;

/// ABSENT o: whether object o is neither carried nor worn nor here.
pub const ABSENT: u8 = 5;

/// WORN o: whether object o is worn.
pub const WORN: u8 = 6;

/// NOTWORN o: whether object o isn't worn.
pub const NOTWORN: u8 = 7;

/// CARRIED o: whether object o is carried.
pub const CARRIED: u8 = 8;

/// NOTCARR o: whether object o isn't carried.
pub const NOTCARR: u8 = 9;

/// CHANCE n: whether a draw from 1 to 100 is at most n.
pub const CHANCE: u8 = 10;

/// ZERO f: whether flag f is 0.
pub const ZERO: u8 = 11;

/// NOTZERO f: whether flag f isn't 0.
pub const NOTZERO: u8 = 12;

/// EQ f n: whether flag f is n.
pub const EQ: u8 = 13;

/// NOTEQ f n: whether flag f isn't n.
pub const NOTEQ: u8 = 14;

/// GT f n: whether flag f is above n.
pub const GT: u8 = 15;

/// LT f n: whether flag f is below n.
pub const LT: u8 = 16;

/// SAME f g: whether flags f and g are equal.
pub const SAME: u8 = 17;

/// NOTSAME f g: whether flags f and g differ.
pub const NOTSAME: u8 = 18;

/// ADJECT1 w: whether the first noun's adjective is w.
pub const ADJECT1: u8 = 19;

/// ADVERB w: whether the sentence's adverb is w.
pub const ADVERB: u8 = 20;

/// PREP w: whether the sentence's preposition is w.
pub const PREP: u8 = 21;

/// NOUN2 w: whether the sentence's second noun is w.
pub const NOUN2: u8 = 22;

/// ADJECT2 w: whether the second noun's adjective is w.
pub const ADJECT2: u8 = 23;

/// ISAT o p: whether object o is at place p.
pub const ISAT: u8 = 24;

/// ISNOTAT o p: whether object o isn't at place p.
pub const ISNOTAT: u8 = 25;

/// TIMEOUT: whether the last line was a timeout.
pub const TIMEOUT: u8 = 26;

/// QUIT: asks whether to quit, and leaves the table unless the answer is yes.
pub const QUIT: u8 = 27;

/// MOVE f: whether the location in flag f has an exit for the verb; where it has, flag f becomes the location that it
/// leads to.
pub const MOVE: u8 = 28;

/// INVEN: lists what is carried and worn.
pub const INVEN: u8 = 29;

/// DESC: ends all calls and the loop, and describes the location.
pub const DESC: u8 = 30;

/// END: asks whether to play again, and starts anew or ends the game.
pub const END: u8 = 31;

/// DONE: leaves the table with something done.
pub const DONE: u8 = 32;

/// NOTDONE: leaves the table as if nothing had been done.
pub const NOTDONE: u8 = 33;

/// OK: says that it was done, and leaves the table as DONE does.
pub const OK: u8 = 34;

/// ANYKEY: asks for a key, and waits for a line.
pub const ANYKEY: u8 = 35;

/// SAVE: keeps flags and places as a numbered position, then describes the location.
pub const SAVE: u8 = 36;

/// LOAD: brings flags and places back from a numbered position, then describes the location.
pub const LOAD: u8 = 37;

/// RAMSAVE: saves flags and places in memory.
pub const RAMSAVE: u8 = 38;

/// RAMLOAD n: brings flags 0 to n and all places back from memory.
pub const RAMLOAD: u8 = 39;

/// TURNS: says how many turns were taken.
pub const TURNS: u8 = 40;

/// SCORE: says the score.
pub const SCORE: u8 = 41;

/// DROPALL: drops all that is carried or worn.
pub const DROPALL: u8 = 42;

/// AUTOG: does GET with the object that the sentence names.
pub const AUTOG: u8 = 43;

/// AUTOD: does DROP with the object that the sentence names.
pub const AUTOD: u8 = 44;

/// AUTOW: does WEAR with the object that the sentence names.
pub const AUTOW: u8 = 45;

/// AUTOR: does REMOVE with the object that the sentence names.
pub const AUTOR: u8 = 46;

/// AUTOP l: does PUTIN with the object that the sentence names and container l.
pub const AUTOP: u8 = 47;

/// AUTOT l: does TAKEOUT with the object that the sentence names and container l.
pub const AUTOT: u8 = 48;

/// GOTO l: makes l the current location.
pub const GOTO: u8 = 49;

/// MES m: prints message m.
pub const MES: u8 = 50;

/// MESSAGE m: prints message m and a line end.
pub const MESSAGE: u8 = 51;

/// SYSMESS m: prints system message m.
pub const SYSMESS: u8 = 52;

/// NEWLINE: prints a line end.
pub const NEWLINE: u8 = 53;

/// PRINT f: prints the number that flag f holds.
pub const PRINT: u8 = 54;

/// GET o: takes object o, or says why it can't be taken.
pub const GET: u8 = 55;

/// DROP o: drops object o, or says why it can't be dropped.
pub const DROP: u8 = 56;

/// WEAR o: puts object o on, or says why it can't be worn.
pub const WEAR: u8 = 57;

/// REMOVE o: takes object o off, or says why it can't be taken off.
pub const REMOVE: u8 = 58;

/// PUTIN o l: puts object o into container l, or says why not.
pub const PUTIN: u8 = 59;

/// TAKEOUT o l: takes object o out of container l, or says why not.
pub const TAKEOUT: u8 = 60;

/// CREATE o: moves object o here.
pub const CREATE: u8 = 61;

/// DESTROY o: moves object o to the place of objects that aren't created.
pub const DESTROY: u8 = 62;

/// SWAP o q: lets objects o and q change places.
pub const SWAP: u8 = 63;

/// PLACE o p: moves object o to place p.
pub const PLACE: u8 = 64;

/// PUTO p: moves the object that was referred to last to place p.
pub const PUTO: u8 = 65;

/// SET f: gives flag f the value 255.
pub const SET: u8 = 66;

/// CLEAR f: gives flag f the value 0.
pub const CLEAR: u8 = 67;

/// PLUS f n: adds n to flag f, up to 255.
pub const PLUS: u8 = 68;

/// MINUS f n: takes n off flag f, down to 0.
pub const MINUS: u8 = 69;

/// LET f n: gives flag f the value n.
pub const LET: u8 = 70;

/// ADD f g: adds flag f to flag g, up to 255.
pub const ADD: u8 = 71;

/// SUB f g: takes flag f off flag g, down to 0.
pub const SUB: u8 = 72;

/// RANDOM f: gives flag f a draw from 1 to 100.
pub const RANDOM: u8 = 73;

/// COPYOO o q: moves object q to where object o is.
pub const COPYOO: u8 = 74;

/// COPYOF o f: gives flag f the place of object o.
pub const COPYOF: u8 = 75;

/// COPYFO f o: moves object o to the place that flag f holds.
pub const COPYFO: u8 = 76;

/// COPYFF f g: gives flag g the value of flag f.
pub const COPYFF: u8 = 77;

/// LISTOBJ: lists the objects that are here.
pub const LISTOBJ: u8 = 78;

/// LISTAT p: lists the objects at place p.
pub const LISTAT: u8 = 79;

/// WHATO: refers to the object that the sentence names.
pub const WHATO: u8 = 80;

/// WEIGH o f: gives flag f the weight of object o.
pub const WEIGH: u8 = 81;

/// WEIGHT f: gives flag f the weight of all that is carried and worn.
pub const WEIGHT: u8 = 82;

/// ABILITY n k: lets n objects and the weight k be carried.
pub const ABILITY: u8 = 83;

/// PARSE: takes the line's next phrase; after a sentence the next entry is tried.
pub const PARSE: u8 = 84;

/// PROCESS t: reads table t, then goes on.
pub const PROCESS: u8 = 85;

/// DOALL p: reads the rest of the table for each object at place p.
pub const DOALL: u8 = 86;

/// PROMPT n: makes system message n the prompt.
pub const PROMPT: u8 = 87;

/// TIME n k: gives the two flags of timeouts the values n and k.
pub const TIME: u8 = 88;

/// NEWTEXT: drops what is left of the line.
pub const NEWTEXT: u8 = 89;

/// RESET l: puts all objects back, goes to location l, and describes it.
pub const RESET: u8 = 90;

/// EXTERN n f: gives flag f what routine n makes of it.
pub const EXTERN: u8 = 91;

/// PICTURE n: prints the sign `[PICTURE n]`.
pub const PICTURE: u8 = 92;

/// GRAPHIC n: prints the sign `[GRAPHIC n]`.
pub const GRAPHIC: u8 = 93;

/// BEEP n k: prints the sign `[BEEP n k]`.
pub const BEEP: u8 = 94;

/// CLS: prints the sign `[CLS]`.
pub const CLS: u8 = 95;

/// PAPER n: prints the sign `[PAPER n]`.
pub const PAPER: u8 = 96;

/// INK n: prints the sign `[INK n]`.
pub const INK: u8 = 97;

/// BORDER n: prints the sign `[BORDER n]`.
pub const BORDER: u8 = 98;

/// CHARSET n: prints the sign `[CHARSET n]`.
pub const CHARSET: u8 = 99;

/// PROTECT: prints the sign `[PROTECT]`.
pub const PROTECT: u8 = 100;

/// SAVEAT: prints the sign `[SAVEAT]`.
pub const SAVEAT: u8 = 101;

/// BACKAT: prints the sign `[BACKAT]`.
pub const BACKAT: u8 = 102;

/// PRINTAT n k: prints the sign `[PRINTAT n k]`.
pub const PRINTAT: u8 = 103;

/// PAUSE n: prints the sign `[PAUSE n]`.
pub const PAUSE: u8 = 104;

/// MODE n k: prints the sign `[MODE n k]`.
pub const MODE: u8 = 105;

/// LINE n: prints the sign `[LINE n]`.
pub const LINE: u8 = 106;

/// INPUT n: prints the sign `[INPUT n]`.
pub const INPUT: u8 = 107;

/// The difference between the code of an indirect condact and that of the plain one.
pub const INDIRECT: u8 = 128;
