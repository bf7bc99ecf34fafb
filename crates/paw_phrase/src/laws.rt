// The laws of phrases.

ghost use Rattle.paw_phrase.specs.inner.Leaving.{PhrasesTakeTwo};

/// A phrase that is taken leaves nothing pending, or at least two bytes less: those of a token, and of what separates
/// the phrase from the next one. So a line has at most half as many phrases as bytes, and one more.
pub fn phrases_take_two_bytes()
    ensures two { PhrasesTakeTwo }
{}
