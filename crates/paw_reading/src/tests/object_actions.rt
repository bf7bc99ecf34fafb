// The actions on objects, in a game of a lamp, a sword, a bag, a pouch without a noun, a coat and a torch.

use super::{GO, LOOP_ENDED, REFUSED, Scene, YES, run, tables};
use paw_base::codes::{
    AUTOD, AUTOG, AUTOP, AUTOR, AUTOT, AUTOW, CARRIED, DESTROY, DROP, EQ, GET, ISAT, LET, PLACE,
    PUTIN, REMOVE, TAKEOUT, WEAR, WHATO, WORN, ZERO,
};
use paw_base::parts::ObjectFacts;
use paw_game::parts::{Exits, GameParts, ObjectRow, Text, Word};
use std::alloc::{AllocError, Global};
use std::test::Fail;

/// The number of locations, more than there are objects.
const LOCATIONS: usize = 8;

/// Texts, nouns, adjectives, places, weights; the bag and the pouch are containers, and the coat may be worn.
const OBJECTS: [(&str, u8, u8, u8, u8); 6] = [
    ("lamp", 50, 2, 0, 2),
    ("sword", 51, 255, 0, 3),
    ("bag", 52, 255, 0, 1),
    ("pouch", 255, 255, 1, 0),
    ("coat", 54, 255, 254, 2),
    ("torch", 50, 3, 1, 4),
];

const BAG: u8 = 2;

const POUCH: u8 = 3;

const COAT: u8 = 4;

const GETTING: &[Scene] = scenes! {
    GET 0 0 GO, CARRIED 0 0 YES, EQ 1 2 YES => "36 lamp\n";
    GET 0 0 REFUSED => "25 lamp\n";
    PLACE 0 253 GO, GET 0 0 REFUSED => "25 lamp\n";
    GET 5 0 REFUSED => "26 torch\n";
    // The lamp and the coat weigh 4, and only the coat counts as carried.
    LET 52 6 GO, LET 37 1 GO, GET 1 0 REFUSED => "43 sword\n";
    LET 52 7 GO, GET 1 0 LOOP_ENDED, EQ 51 1 YES, EQ 55 3 YES => "27 sword\n";
    LET 37 2 GO, GET 1 0 GO, EQ 54 0 YES => "36 sword\n";
    // The current location isn't one of the game's, and the bag stands there.
    LET 52 255 GO, LET 37 255 GO, DESTROY 2 0 GO, LET 38 252 GO, GET 2 0 REFUSED, EQ 56 128 YES,
        ZERO 57 0 YES => "26 bag\n";
};

const DROPPING: &[Scene] = scenes! {
    DROP 0 0 REFUSED => "49 lamp\n";
    PLACE 1 253 GO, DROP 1 0 REFUSED => "24 sword\n";
    DROP 5 0 REFUSED => "28 torch\n";
    DROP 4 0 GO, ISAT 4 0 YES, ZERO 1 0 YES => "39 coat\n";
    PLACE 0 254 GO, LET 38 200 GO, DROP 0 0 GO, ISAT 0 252 YES => "39 lamp\n";
};

const WEARING: &[Scene] = scenes! {
    WEAR 0 0 REFUSED => "49 lamp\n";
    WEAR 5 0 REFUSED => "28 torch\n";
    PLACE 1 254 GO, WEAR 1 0 REFUSED => "40 sword\n";
    WEAR 4 0 GO, WORN 4 0 YES, EQ 1 1 YES => "37 coat\n";
    WEAR 4 0 REFUSED => "29 coat\n";
};

const REMOVING: &[Scene] = scenes! {
    REMOVE 4 0 REFUSED => "50 coat\n";
    REMOVE 0 0 REFUSED => "50 lamp\n";
    REMOVE 5 0 REFUSED => "23 torch\n";
    LET 37 0 GO, PLACE 1 253 GO, REMOVE 1 0 REFUSED => "41 sword\n";
    PLACE 4 253 GO, ZERO 1 0 YES, REMOVE 4 0 LOOP_ENDED => "42 coat\n";
    LET 37 1 GO, REMOVE 4 0 GO, CARRIED 4 0 YES, EQ 1 1 YES => "38 coat\n";
};

const PUTTING: &[Scene] = scenes! {
    PUTIN 0 BAG REFUSED => "49 lamp\n";
    PUTIN 5 BAG REFUSED => "28 torch\n";
    PLACE 1 253 GO, PUTIN 1 BAG REFUSED => "24 sword\n";
    PUTIN COAT BAG GO, ISAT COAT BAG YES, ZERO 1 0 YES => "44 coatbag51 coat\n";
    // No object has the number of place 7.
    PLACE COAT 254 GO, PUTIN COAT 7 GO, ISAT COAT 7 YES => "44 coat51 coat\n";
    PUTIN COAT 7 REFUSED => "28 coat\n";
};

const TAKING_OUT: &[Scene] = scenes! {
    TAKEOUT COAT BAG REFUSED => "25 coat\n";
    TAKEOUT 0 BAG REFUSED => "45 lampbag51 lamp\n";
    TAKEOUT 0 0 REFUSED => "45 lamplamp51 lamp\n";
    TAKEOUT 5 BAG REFUSED => "52 torchbag51 torch\n";
    TAKEOUT 5 7 REFUSED => "52 torch51 torch\n";
    // More weighs too much, but for what is held already.
    LET 52 0 GO, LET 37 1 GO, PLACE 1 BAG GO, TAKEOUT 1 BAG REFUSED => "43 sword\n";
    PLACE 1 7 GO, TAKEOUT 1 7 REFUSED => "43 sword\n";
    PLACE 1 BAG GO, PLACE BAG 253 GO, TAKEOUT 1 BAG LOOP_ENDED, ISAT 1 BAG YES => "27 sword\n";
    LET 37 2 GO, TAKEOUT 1 BAG GO, CARRIED 1 0 YES => "36 sword\n";
    PLACE 1 BAG GO, PLACE BAG 254 GO, LET 37 3 GO, TAKEOUT 1 BAG GO => "36 sword\n";
};

/// What the sentence means: the lamp or the torch, at the first place that has one of them.
const GETTING_BY_NAME: &[Scene] = scenes! {
    LET 34 50 GO, PLACE 5 254 GO, AUTOG 0 0 GO => "36 lamp\n";
    AUTOG 0 0 REFUSED => "25 lamp\n";
    LET 35 3 GO, AUTOG 0 0 REFUSED => "25 torch\n";
    LET 35 255 GO, PLACE 0 253 GO, AUTOG 0 0 REFUSED => "25 torch\n";
    DESTROY 5 0 GO, AUTOG 0 0 REFUSED => "25 lamp\n";
    // Nothing is found here while the current location is none.
    DESTROY 0 0 GO, LET 38 252 GO, LET 55 77 GO, AUTOG 0 0 REFUSED, EQ 55 77 YES => "26 lamp\n";
    // No object of the game has the adjective 4 or the noun 60, and none is meant without a noun.
    LET 35 4 GO, AUTOG 0 0 REFUSED => "08 lamp\n";
    LET 35 255 GO, LET 34 60 GO, AUTOG 0 0 REFUSED => "08 lamp\n";
    LET 34 255 GO, PLACE POUCH 254 GO, AUTOG 0 0 REFUSED => "08 lamp\n";
};

const DROPPING_BY_NAME: &[Scene] = scenes! {
    LET 34 50 GO, PLACE 5 254 GO, AUTOD 0 0 GO => "39 torch\n";
    AUTOD 0 0 REFUSED => "49 lamp\n";
    PLACE 5 253 GO, AUTOD 0 0 REFUSED => "24 torch\n";
    PLACE 5 1 GO, PLACE 0 1 GO, AUTOD 0 0 REFUSED => "28 torch\n";
};

const WEARING_BY_NAME: &[Scene] = scenes! {
    LET 34 54 GO, AUTOW 0 0 GO => "37 coat\n";
    AUTOW 0 0 REFUSED => "29 coat\n";
    PLACE COAT 0 GO, AUTOW 0 0 REFUSED => "49 coat\n";
    PLACE COAT 1 GO, AUTOW 0 0 REFUSED => "28 coat\n";
};

const REMOVING_BY_NAME: &[Scene] = scenes! {
    LET 34 50 GO, PLACE 0 254 GO, PLACE 5 253 GO, AUTOR 0 0 REFUSED => "41 torch\n";
    PLACE 5 0 GO, AUTOR 0 0 REFUSED => "50 lamp\n";
    PLACE 0 1 GO, AUTOR 0 0 REFUSED => "50 torch\n";
    PLACE 5 1 GO, AUTOR 0 0 REFUSED => "23 torch\n";
};

const PUTTING_BY_NAME: &[Scene] = scenes! {
    LET 34 54 GO, AUTOP BAG 0 GO, ISAT COAT BAG YES => "44 coatbag51 coat\n";
    AUTOP BAG 0 REFUSED => "28 coat\n";
    LET 34 60 GO, AUTOP BAG 0 REFUSED => "08 coat\n";
};

const TAKING_OUT_BY_NAME: &[Scene] = scenes! {
    LET 34 50 GO, PLACE 0 254 GO, PLACE 5 BAG GO, AUTOT BAG 0 GO => "36 torch\n";
    AUTOT BAG 0 REFUSED => "25 lamp\n";
    PLACE 0 1 GO, PLACE 5 1 GO, AUTOT BAG 0 REFUSED => "52 lampbag51 lamp\n";
    LET 34 60 GO, AUTOT BAG 0 REFUSED => "08 lamp\n";
};

const REFERRING: &[Scene] = scenes! {
    LET 34 50 GO, WHATO 0 0 GO, ZERO 51 0 YES => "";
    PLACE 5 253 GO, WHATO 0 0 GO, EQ 51 5 YES, EQ 54 253 YES, EQ 55 4 YES => "";
    PLACE 0 254 GO, WHATO 0 0 GO, ZERO 51 0 YES, EQ 54 254 YES => "";
    LET 34 60 GO, WHATO 0 0 GO, EQ 51 255 YES, EQ 54 252 YES, ZERO 55 0 YES => "";
};

fn words(alloc: Global) -> Result<Vec<Word>, AllocError> {
    let mut words = Vec::new(alloc);
    for (letters, value, class) in [
        (b"BAG  ", 52, 2),
        (b"BLUE ", 3, 3),
        (b"COAT ", 54, 2),
        (b"LAMP ", 50, 2),
        (b"RED  ", 2, 3),
        (b"SWORD", 51, 2),
    ] {
        words.push(Word::new(*letters, value, class))?;
    }
    Ok(words)
}

// Each message is its number and the name of the object last referred to.
fn system(alloc: Global) -> Result<Vec<Text>, AllocError> {
    let mut system = Vec::new(alloc);
    for n in 0..54u8 {
        let text = [b'0' + n / 10, b'0' + n % 10, b' ', b'_'];
        system.push(Text::from_slice(alloc, &text)?)?;
    }
    Ok(system)
}

fn objects(alloc: Global) -> Result<Vec<ObjectRow>, AllocError> {
    let mut rows = Vec::new(alloc);
    for (o, (name, noun, adjective, start, weight)) in OBJECTS.iter().enumerate() {
        let facts = ObjectFacts {
            noun: *noun,
            adjective: *adjective,
            start: *start,
            weight: *weight,
            container: o == BAG as usize || o == POUCH as usize,
            wearable: o == COAT as usize,
        };
        let text = Text::from_slice(alloc, name.as_bytes())?;
        rows.push(ObjectRow { text, facts })?;
    }
    Ok(rows)
}

fn locations(alloc: Global) -> Result<Vec<Text>, AllocError> {
    let mut texts = Vec::new(alloc);
    for _ in 0..LOCATIONS {
        texts.push(Text::new(alloc))?;
    }
    Ok(texts)
}

fn exits(alloc: Global) -> Result<Vec<Exits>, AllocError> {
    let mut all = Vec::new(alloc);
    for _ in 0..LOCATIONS {
        all.push(Exits::new(alloc))?;
    }
    Ok(all)
}

fn parts(alloc: Global, scenes: &[Scene]) -> Result<GameParts, AllocError> {
    Ok(GameParts {
        words: words(alloc)?,
        system: system(alloc)?,
        messages: Vec::new(alloc),
        objects: objects(alloc)?,
        locations: locations(alloc)?,
        exits: exits(alloc)?,
        tables: tables(alloc, scenes)?,
    })
}

#[test]
fn actions_on_objects(rt: HostRuntime) -> Result<(), Fail> {
    for scenes in [
        GETTING,
        DROPPING,
        WEARING,
        REMOVING,
        PUTTING,
        TAKING_OUT,
        GETTING_BY_NAME,
        DROPPING_BY_NAME,
        WEARING_BY_NAME,
        REMOVING_BY_NAME,
        PUTTING_BY_NAME,
        TAKING_OUT_BY_NAME,
        REFERRING,
    ] {
        run(&rt, rt.alloc(), parts(rt.alloc(), scenes)?, scenes)?;
    }
    Ok(())
}
