//! Hash algorithms and hashes.

ghost use Rattle.std.specs.Prelude.{◌≡◌, ◌%◌, ◌↔◌, length, string_bytes, IfOk, IsTrue, Some};
ghost use Rattle.std.specs.List.{AllPass};
ghost use Rattle.hex.specs.Hex.{IsBytes};
ghost use Rattle.sha2.specs.Sha256.{sha256};
ghost use Rattle.warg_crypto.specs.HashText.{algorithm_of, algorithm_text};

mod typed;

use crate::digits::decode_pairs;
use crate::ranges::byte_range;
use sha2::Digest;
use std::alloc::{AllocError, Global};
use std::fmt;
use std::str::FromStr;
use thiserror::Error;
pub use typed::{Hash, Sha256, SupportedDigest};

/// A hash algorithm.
#[derive(Clone, Copy, Debug, PartialEq, Eq, PartialOrd, Ord, Hash)]
pub enum HashAlgorithm {
    /// SHA-256 of FIPS 180-4.
    Sha256,
}

/// The text names no known hash algorithm.
#[derive(Clone, Copy, Debug, PartialEq, Eq, Error)]
#[error("UnknownAlgorithm")]
pub struct UnknownAlgorithm;

impl HashAlgorithm {
    /// The hash of the bytes.
    pub fn digest(self, bytes: &[u8]) -> AnyHash
        ensures algorithm { result.algorithm ≡ self }
        ensures bytes { result.bytes ≡ sha256 bytes.now }
    {
        match self {
            HashAlgorithm::Sha256 => AnyHash::new(self, sha2::Sha256::digest(bytes)),
        }
    }

    /// The name of the algorithm.
    pub fn as_str(self) -> &'static str
        ensures { result.now ≡ algorithm_text self }
    {
        match self {
            HashAlgorithm::Sha256 => "sha256",
        }
    }
}

impl fmt::Display for HashAlgorithm {
    ghost output = { λ a. Some (algorithm_text a) };

    ghost styled_output = { λ a _. Some (algorithm_text a) };

    fn fmt<W: fmt::Write>(&self, f: &mut fmt::Formatter<W>) -> fmt::Result {
        f.write_str(self.as_str())
    }
}

impl FromStr for HashAlgorithm {
    type Err = UnknownAlgorithm;

    ghost from_str_gives = { λ text r. r ≡ algorithm_of text };

    fn from_str(text: &str) -> Result<HashAlgorithm, UnknownAlgorithm> {
        if text == "sha256" {
            Ok(HashAlgorithm::Sha256)
        } else {
            Err(UnknownAlgorithm)
        }
    }
}

/// A hash under its algorithm. Its text is the algorithm's name, a colon, and its bytes in
/// lower-case hex digits; digits of either case are read. Hashes are ordered by algorithm, then by
/// bytes.
#[derive(Clone, Copy, PartialEq, Eq, PartialOrd, Ord, Hash)]
pub struct AnyHash {
    algorithm: HashAlgorithm,
    bytes: [u8; 32],
}

/// Why a text is no hash.
#[derive(Clone, Copy, Debug, PartialEq, Eq, Error)]
pub enum AnyHashError {
    /// No colon stands in the text.
    #[error("MissingAlgorithm")]
    MissingAlgorithm,
    /// What stands before the first colon names no known algorithm.
    #[error("UnknownAlgorithm")]
    UnknownAlgorithm,
    /// What stands after the first colon is not made of pairs of hex digits.
    #[error("BadHex")]
    BadHex,
    /// What stands after the first colon has not 64 hex digits.
    #[error("BadLength")]
    BadLength,
}

impl AnyHash {
    /// The hash of these bytes under the algorithm.
    pub fn new(algorithm: HashAlgorithm, bytes: [u8; 32]) -> AnyHash
        ensures algorithm { result.algorithm ≡ algorithm }
        ensures bytes { result.bytes ≡ bytes }
    {
        AnyHash { algorithm, bytes }
    }

    /// The algorithm.
    pub fn algorithm(&self) -> HashAlgorithm
        ensures { result ≡ self.now.algorithm }
    {
        self.algorithm
    }

    /// The 32 bytes.
    pub fn bytes(&self) -> &[u8]
        ensures value { result.now ≡ self.now.bytes }
        ensures len { length result.now ≡ 32 }
        ensures are_bytes { IsBytes self.now.bytes }
    {
        byte_range(&self.bytes);
        &self.bytes
    }
}

impl AnyHash {
    ghost use Rattle.warg_crypto.specs.HashText.{hash_text};

    /// The text of the hash, written over `buffer`.
    pub fn write_text<'b>(&self, buffer: &'b mut [u8; 71]) -> &'b str
        ensures { result.now ≡ hash_text self.now }
    {
        let (name, digits) = buffer.split_at_mut(7);
        name.copy_from_slice(b"sha256:");
        let _ = hex::encode_to_slice(&self.bytes, digits);
        unsafe { str::from_utf8_unchecked(buffer) }
    }

    /// The text of the hash.
    pub fn to_text(&self, alloc: Global) -> Result<String, AllocError>
        ensures { IfOk result (λ text. string_bytes text ≡ hash_text self.now) }
    {
        let mut buffer = [0u8; 71];
        String::from_str(alloc, self.write_text(&mut buffer))
    }
}

impl fmt::Display for AnyHash {
    ghost use Rattle.std.specs.Prelude.{Some};
    ghost use Rattle.warg_crypto.specs.HashText.{hash_text};

    ghost output = { λ h. Some (hash_text h) };

    ghost styled_output = { λ h _. Some (hash_text h) };

    fn fmt<W: fmt::Write>(&self, f: &mut fmt::Formatter<W>) -> fmt::Result {
        let mut buffer = [0u8; 71];
        f.write_str(self.write_text(&mut buffer))
    }
}

impl fmt::Debug for AnyHash {
    ghost use Rattle.std.specs.Fmt.{WritesStyledOnOk};
    ghost use Rattle.std.specs.Prelude.{Some};
    ghost use Rattle.warg_crypto.specs.HashText.{hash_text};

    ghost debug_output = { λ h. Some (hash_text h) };

    fn fmt<W: fmt::Write>(&self, f: &mut fmt::Formatter<W>) -> fmt::Result
        ensures styled { WritesStyledOnOk W.write_str_gives f.old result
            (hash_text self.now) f.new }
    {
        fmt::Display::fmt(self, f)
    }
}

impl FromStr for AnyHash {
    type Err = AnyHashError;

    ghost use Rattle.std.specs.Prelude.{◌≡◌};
    ghost use Rattle.warg_crypto.specs.HashText.{hash_of};

    ghost from_str_gives = { λ text r. r ≡ hash_of text };

    fn from_str(text: &str) -> Result<AnyHash, AnyHashError> {
        let Some((name, digits)) = text.split_once(':') else {
            return Err(AnyHashError::MissingAlgorithm);
        };
        if name != "sha256" {
            return Err(AnyHashError::UnknownAlgorithm);
        }
        hash_of_digits(digits.as_bytes())
    }
}

ghost use Rattle.hex.specs.Hex.{is_hex_digit};
ghost use Rattle.warg_crypto.specs.HashText.{hash_of_digits};

fn is_hex_digit(byte: u8) -> bool
    ensures { result ≡ is_hex_digit byte }
{
    matches!(byte, b'A'..=b'F' | b'a'..=b'f' | b'0'..=b'9')
}

// Whether pairs of digits stand there.
fn are_pairs(digits: &[u8]) -> bool
    ensures { IsTrue result ↔ ((length digits.now % 2 ≡ 0) × AllPass is_hex_digit digits.now) }
{
    digits.len() % 2 == 0 && digits.iter().all(|d| is_hex_digit(*d))
}

// The hash that 64 digits spell.
fn hash_of_64(digits: &[u8]) -> Result<AnyHash, AnyHashError>
    requires { length digits.now ≡ 64 }
    ensures { result ≡ hash_of_digits digits.now }
{
    let mut bytes = [0u8; 32];
    if !decode_pairs(digits, &mut bytes) {
        return Err(AnyHashError::BadHex);
    }
    Ok(AnyHash::new(HashAlgorithm::Sha256, bytes))
}

// The hash that the digits spell.
fn hash_of_digits(digits: &[u8]) -> Result<AnyHash, AnyHashError>
    ensures { result ≡ hash_of_digits digits.now }
{
    if digits.len() == 64 {
        return hash_of_64(digits);
    }
    if are_pairs(digits) {
        Err(AnyHashError::BadLength)
    } else {
        Err(AnyHashError::BadHex)
    }
}
