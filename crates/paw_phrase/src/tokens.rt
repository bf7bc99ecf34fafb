// Cutting bytes into tokens and separators.

ghost use Rattle.std.specs.Prelude.{◌≡◌, ◌<◌, ◌≤◌, [], ◌∷◌, true, false, length, drop, slice_index, MatchOption};
ghost use Rattle.std.specs.Prelude.{IfSome, IfNone};
ghost use Rattle.std.specs.Char.{is_ascii_alphanumeric, to_ascii_uppercase};
ghost use Rattle.paw_phrase.specs.Phrase.{is_separator, lexemes};

use paw_base::limits::WORD_LENGTH;

/// A token, cut to five letters and filled up with spaces, or a separator (which has none), and where it ends.
#[derive(Clone, Copy, Drop)]
pub(crate) struct Lexeme {
    pub(crate) token: Option<[u8; WORD_LENGTH]>,
    pub(crate) end: usize,
}

/// What each byte is in a token: a digit, or a letter as a capital; 0 for a byte that ends one. It is a table because
/// one look-up takes less than comparisons for each byte of a line.
static LETTER_OF_BYTE: [u8; 256] = [
    0, 0, 0, 0, 0, 0, 0, 0, 0, 0, 0, 0, 0, 0, 0, 0, 0, 0, 0, 0, 0, 0, 0, 0, 0, 0, 0, 0, 0, 0, 0, 0,
    0, 0, 0, 0, 0, 0, 0, 0, 0, 0, 0, 0, 0, 0, 0, 0, 48, 49, 50, 51, 52, 53, 54, 55, 56, 57, 0, 0,
    0, 0, 0, 0, 0, 65, 66, 67, 68, 69, 70, 71, 72, 73, 74, 75, 76, 77, 78, 79, 80, 81, 82, 83, 84,
    85, 86, 87, 88, 89, 90, 0, 0, 0, 0, 0, 0, 65, 66, 67, 68, 69, 70, 71, 72, 73, 74, 75, 76, 77,
    78, 79, 80, 81, 82, 83, 84, 85, 86, 87, 88, 89, 90, 0, 0, 0, 0, 0, 0, 0, 0, 0, 0, 0, 0, 0, 0,
    0, 0, 0, 0, 0, 0, 0, 0, 0, 0, 0, 0, 0, 0, 0, 0, 0, 0, 0, 0, 0, 0, 0, 0, 0, 0, 0, 0, 0, 0, 0, 0,
    0, 0, 0, 0, 0, 0, 0, 0, 0, 0, 0, 0, 0, 0, 0, 0, 0, 0, 0, 0, 0, 0, 0, 0, 0, 0, 0, 0, 0, 0, 0, 0,
    0, 0, 0, 0, 0, 0, 0, 0, 0, 0, 0, 0, 0, 0, 0, 0, 0, 0, 0, 0, 0, 0, 0, 0, 0, 0, 0, 0, 0, 0, 0, 0,
    0, 0, 0, 0, 0, 0, 0, 0, 0, 0, 0, 0, 0, 0, 0, 0, 0, 0, 0, 0, 0, 0, 0,
];

fn is_separator(byte: u8) -> bool
    ensures value { result ≡ is_separator byte }
{
    matches!(byte, b'.' | b',' | b';' | b':' | b'!' | b'?' | b'"')
}

// Whether a byte may stand in a token.
fn is_in_token(byte: u8) -> bool
    ensures value { result ≡ is_ascii_alphanumeric byte }
{
    LETTER_OF_BYTE[byte as usize] != 0
}

// The letter of a byte by that table. None for a byte that ends a token.
fn letter_of(byte: u8) -> Option<u8>
    ensures none { IfNone result (is_ascii_alphanumeric byte ≡ false) }
    ensures some { IfSome result (λ letter. (is_ascii_alphanumeric byte ≡ true) × (letter ≡ to_ascii_uppercase byte)) }
{
    let letter = LETTER_OF_BYTE[byte as usize];
    if letter == 0 { None } else { Some(letter) }
}

// The token that stands first. It is inlined, as is what calls it, because a lexeme would be given back through memory.
#[inline(always)]
fn first_token(bytes: &[u8]) -> Lexeme
    requires begins { 0 < length bytes.now }
    requires token { is_ascii_alphanumeric (slice_index bytes.now 0) ≡ true }
    ensures within { result.end ≤ length bytes.now }
    ensures some { 0 < result.end }
    ensures value { lexemes bytes.now
        ≡ record { token = result.token; after = drop result.end bytes.now } ∷ lexemes (drop result.end bytes.now) }
{
    let mut letters = [b' '; WORD_LENGTH];
    for (i, byte) in bytes.iter().enumerate() {
        let Some(letter) = letter_of(*byte) else {
            return Lexeme {
                token: Some(letters),
                end: i,
            };
        };
        if i < WORD_LENGTH {
            letters[i] = letter;
        }
    }
    Lexeme {
        token: Some(letters),
        end: bytes.len(),
    }
}

/// The first token or separator; None where there are only blanks.
#[inline(always)]
pub(crate) fn first_lexeme(bytes: &[u8]) -> Option<Lexeme>
    ensures within { IfSome result (λ lexeme. lexeme.end ≤ length bytes.now) }
    ensures some { IfSome result (λ lexeme. 0 < lexeme.end) }
    ensures value { MatchOption result (lexemes bytes.now ≡ []) (λ lexeme. lexemes bytes.now
        ≡ record { token = lexeme.token; after = drop lexeme.end bytes.now } ∷ lexemes (drop lexeme.end bytes.now)) }
{
    for (i, byte) in bytes.iter().enumerate() {
        if is_in_token(*byte) {
            let lexeme = first_token(&bytes[i..]);
            return Some(Lexeme {
                token: lexeme.token,
                end: i + lexeme.end,
            });
        }
        if is_separator(*byte) {
            return Some(Lexeme {
                token: None,
                end: i + 1,
            });
        }
    }
    None
}
