// The digest by which a session knows its game.

ghost use Rattle.std.specs.Prelude.{◌≡◌};
ghost use Rattle.sha2.specs.Sha256.{sha256};

use sha2::{Digest, Sha256};

/// The SHA-256 digest of an image.
pub fn digest(image: &[u8]) -> [u8; 32]
    ensures value { result ≡ sha256 image.now }
{
    Sha256::digest(image)
}
