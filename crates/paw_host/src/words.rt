// The words of a call.

ghost use Rattle.std.specs.Prelude.{map, string_bytes};
ghost use Rattle.paw_host.specs.Words.{host_call_of};
ghost use Rattle.paw_host.specs.inner.Words.{SpellsCall};

use paw_play::numbers::seed_of;

/// What is asked for: the game of this image file is hosted, and new sessions are begun with this seed.
#[derive(Clone, Copy, Drop)]
pub(crate) struct HostCall<'a> {
    pub image: &'a str,
    pub seed: u64,
}

/// What these words ask for: the name of a file, which has at least one byte, and a seed. None where they have no such
/// form.
pub(crate) fn call_of<'a>(words: &'a [String]) -> Option<HostCall<'a>>
    ensures value { SpellsCall result (host_call_of (map string_bytes words.now)) }
{
    let [image, seed] = words else {
        return None;
    };
    if image.is_empty() {
        return None;
    }
    let seed = seed_of(seed.as_str())?;
    Some(HostCall {
        image: image.as_str(),
        seed,
    })
}
