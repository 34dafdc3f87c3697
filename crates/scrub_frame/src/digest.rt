//! The digest of a payload.

ghost use Rattle.std.specs.Prelude.{◌≡◌};
ghost use Rattle.sha2.specs.Sha256.{sha256};

use sha2::{Digest, Sha256};

/// The size of a SHA-256 in bytes; a sealed frame has as many between its head and its payload.
pub const DIGEST_BYTES: usize = 32;

/// The SHA-256 of a payload, as in FIPS 180-4. Takes no memory.
pub fn digest_of(payload: &[u8]) -> [u8; DIGEST_BYTES]
    ensures { result ≡ sha256 payload.now }
{
    Sha256::digest(payload)
}
