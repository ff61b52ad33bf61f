//! A signature scheme of one's own, with its clauses and its law. A signature is the key's bytes and the message, which
//! keeps no secret: put a real scheme in their place. A line of standard input is signed and verified.

ghost use Rattle.std.specs.Prelude.{◌≡◌, ◌++◌, ℕ, List, codes, true, IfOk};
ghost use Rattle.warg_examples.specs.Stamp.{belongs};

use std::alloc::{AllocError, Global};
use warg_protocol::signing::{PublicKey, Signature, SignatureError, Signer, Verifier};

/// Signs by a key named `stamp`.
#[derive(Drop)]
struct Stamper {
    key: PublicKey,
    ghost named: { key.name ≡ codes "stamp" },
}

impl Stamper {
    fn new(alloc: Global, bytes: &[u8]) -> Result<Stamper, AllocError> {
        let name = String::from_str(alloc, "stamp")?;
        let key = PublicKey::new(name, Vec::from_slice(alloc, bytes)?);
        Ok(Stamper { key })
    }
}

impl Signer for Stamper {
    ghost key_of = { λ s. s.key };

    ghost gives = { λ s message signature. signature ≡ record {
      name = codes "stamp";
      bytes = s.key.bytes ++ message;
    } };

    ghost refuses = { λ _ _. ⊥ };

    fn public_key(&self) -> &PublicKey {
        &self.key
    }

    fn sign(&self, alloc: Global, message: &[u8]) -> Result<Signature, SignatureError> {
        let name = String::from_str(alloc, "stamp")?;
        let mut bytes = Vec::from_slice(alloc, self.key.bytes())?;
        bytes.extend_from_slice(message)?;
        Ok(Signature::new(name, bytes))
    }
}

/// Verifies what a `Stamper` signs.
#[derive(Clone, Copy)]
struct StampVerifier;

impl Verifier for StampVerifier {
    ghost belongs = { λ _ key message signature. belongs key.name key.bytes message signature.name signature.bytes };

    fn verify(
        &self,
        alloc: Global,
        key: &PublicKey,
        message: &[u8],
        signature: &Signature,
    ) -> Result<(), SignatureError> {
        let mut bytes = Vec::from_slice(alloc, key.bytes())?;
        bytes.extend_from_slice(message)?;
        let is_named = key.algorithm() == "stamp" && signature.algorithm() == "stamp";
        if is_named && signature.bytes() == bytes.as_slice() {
            Ok(())
        } else {
            Err(SignatureError::Refused)
        }
    }
}

/// What a `Stamper` signs, the verifier takes under its key.
fn what_is_signed_is_taken(signer: &Stamper, verifier: &StampVerifier)
    ensures { (message : List ℕ) (name bytes : List ℕ) →
        ⟦<Stamper as Signer>⟧.gives signer.now message (record { name = name; bytes = bytes }) →
        ⟦<StampVerifier as Verifier>⟧.belongs verifier.now
        (⟦<Stamper as Signer>⟧.key_of signer.now) message
        (record { name = name; bytes = bytes }) ≡ true }
{
    let _ = &signer.key;
}

/// Signs each line of standard input, and verifies and prints the signature.
pub(crate) fn main(rt: &HostRuntime) -> anyhow::Result<()> {
    let signer = Stamper::new(rt.alloc(), b"alice")?;
    what_is_signed_is_taken(&signer, &StampVerifier);
    for line in rt.lines(rt.alloc()) {
        let line = line?;
        let signature = signer.sign(rt.alloc(), line.as_bytes())?;
        StampVerifier.verify(rt.alloc(), signer.public_key(), line.as_bytes(), &signature)?;
        println!(rt; "{line}: {signature}")?;
    }
    Ok(())
}
