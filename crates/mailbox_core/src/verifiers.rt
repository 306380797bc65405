//! What passwords are tested against.

ghost use Rattle.std.specs.Prelude.{◌≡◌};
ghost use Rattle.mail_world.specs.Looking.{verifier_of};

use sha2::{Digest, Sha256};

// What a password of a user is tested against.
pub(crate) fn verifier(name: &[u8], password: &[u8]) -> [u8; 32]
    ensures { result ≡ verifier_of name.now password.now }
{
    let mut digest = Sha256::new();
    digest.update(name);
    digest.update(&[0u8]);
    digest.update(password);
    digest.finalize()
}
