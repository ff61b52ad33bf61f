//! Names of packages.
ghost use Rattle.std.specs.Prelude.{◌≡◌, ◌↔◌, IsTrue, IfOk, IfErr, Some, true, string_bytes};
ghost use Rattle.std.specs.Cmp.{partial_equiv_from_equiv};
ghost use Rattle.std.specs.Cmp.Lexicographic.{slice_cmp, nat_list_eq_equiv, nat_list_cmp_total, texts_po, texts_ties};
ghost use Rattle.std.specs.Cmp.Rules.{hashing};
ghost use Rattle.std.specs.Hash as fed;
ghost use Rattle.std.specs.Ordering.{nat_cmp};
ghost use Rattle.std.specs.Str.{bytes_eq};
ghost use Rattle.std.proofs.Common.{rules, refl};
ghost use Rattle.warg_registry.specs.KebabNames.{IsKebabName, IsPackageName, IsPackageText, is_package_name, is_kebab_name, ends_kebab, is_letter, is_letter_or_digit, is_colon, namespace_of, name_of};

use std::alloc::{AllocError, AllocFailed, Global};
use std::cmp::Ordering;
use std::fmt;
use std::hash::{Hash, Hasher};
use std::marker::Model;
use thiserror::Error;
use warg_crypto::prefix::{PrefixEncodeVisitor, VisitPrefixEncode};
use warg_crypto::{ByteVisitor, VisitBytes};

/// Why a text names no package.
#[derive(Debug, PartialEq, Eq, Drop, Error)]
pub enum PackageNameError {
    /// The text is no namespace, colon and name.
    #[error("invalid package name `{name}`: expected format is `<namespace>:<name>` using lowercased characters")]
    InvalidPackageName {
        /// The text.
        name: String,
    },
    /// Memory was refused.
    #[error("OutOfMemory")]
    OutOfMemory,
}

impl From<AllocError> for PackageNameError {
    ghost use Rattle.std.specs.Prelude.{◌≡◌};
    ghost use Rattle.warg_registry.specs.declared.package_name.PackageNameError.TheVariants.{OutOfMemory};

    ghost from_gives = { λ _ e. e ≡ OutOfMemory };

    fn from(_error: AllocError) -> PackageNameError {
        PackageNameError::OutOfMemory
    }
}

/// A package's name: a namespace, a colon and a name, both of lower-case letters, digits and hyphens.
/// Names are ordered by the bytes of their texts.
#[derive(Debug, Drop)]
pub struct PackageName {
    text: String,
}

impl Model for PackageName {
    ghost use Rattle.std.specs.Prelude.{◌≡◌, List, ℕ, true, string_bytes};
    ghost use Rattle.warg_registry.specs.KebabNames.{is_package_name};

    ghost Value = { List ℕ };

    ghost view = { λ n. string_bytes n.text };

    ghost invariant = { λ n. is_package_name (string_bytes n.text) ≡ true };
}

/// Whether the byte is a letter a to z.
fn is_letter(byte: u8) -> bool
    ensures { result ≡ is_letter byte }
{
    97 <= byte && byte <= 122
}

/// Whether the byte is a letter a to z or a digit 0 to 9.
fn is_letter_or_digit(byte: u8) -> bool
    ensures { result ≡ is_letter_or_digit byte }
{
    is_letter(byte) || (48 <= byte && byte <= 57)
}

/// Whether the bytes are words of a letter and then letters and digits, joined by single hyphens.
fn is_kebab_name(text: &[u8]) -> bool
    ensures { result ≡ is_kebab_name text.now }
{
    let mut starts = true;
    'bytes: for byte in text {
        if starts {
            if !is_letter(*byte) {
                return false;
            }
            starts = false;
        } else if *byte == b'-' {
            starts = true;
        } else if !is_letter_or_digit(*byte) {
            return false;
        }
    }
    !starts
}

/// Whether the text is a namespace, a colon and a name.
fn is_package_name(text: &str) -> bool
    ensures { result ≡ is_package_name text.now }
{
    match text.split_once(':') {
        Some((namespace, name)) => {
            is_kebab_name(namespace.as_bytes()) && is_kebab_name(name.as_bytes())
        }
        None => false,
    }
}

impl PackageName {
    ghost use Rattle.warg_registry.specs.PackageNames.{Refuses};

    /// The package name that the text is.
    pub fn new(alloc: Global, name: &str) -> Result<PackageName, PackageNameError>
        ensures ok { IfOk result (λ n. (n ≡ name.now) × IsPackageText name.now) }
        ensures err { IfErr result (λ e. Refuses e name.now) }
    {
        let text = String::from_str(alloc, name)?;
        if is_package_name(name) {
            Ok(PackageName { text })
        } else {
            Err(PackageNameError::InvalidPackageName { name: text })
        }
    }

    /// The same as `new`.
    pub fn parse(alloc: Global, name: &str) -> Result<PackageName, PackageNameError>
        ensures ok { IfOk result (λ n. (n ≡ name.now) × IsPackageText name.now) }
        ensures err { IfErr result (λ e. Refuses e name.now) }
    {
        PackageName::new(alloc, name)
    }

    /// The part in front of the colon.
    pub fn namespace(&self) -> &str
        ensures value { result.now ≡ namespace_of self.now }
        ensures part { IsPackageName self.now result.now (name_of self.now) }
    {
        match self.text.as_str().split_once(':') {
            Some((namespace, _)) => namespace,
            None => unreachable!(),
        }
    }

    /// The part behind the colon.
    pub fn name(&self) -> &str
        ensures value { result.now ≡ name_of self.now }
        ensures part { IsPackageName self.now (namespace_of self.now) result.now }
    {
        match self.text.as_str().split_once(':') {
            Some((_, name)) => name,
            None => unreachable!(),
        }
    }

    /// The whole text.
    pub fn as_str(&self) -> &str
        ensures value { result.now ≡ self.now }
        ensures is_name { IsPackageText result.now }
    {
        self.text.as_str()
    }

    /// A copy.
    pub fn try_clone(&self) -> Result<PackageName, AllocError>
        ensures { IfOk result (λ copy. copy ≡ self.now) }
    {
        self.clone()
    }

    /// Whether the text is a package name. This takes no memory, while the error of `new` holds a copy of the text.
    pub fn is_valid(text: &str) -> bool
        ensures grammar { IsTrue result ↔ IsPackageText text.now }
        ensures computed { result ≡ is_package_name text.now }
    {
        is_package_name(text)
    }

    /// Whether the text is words of a letter a to z and then letters a to z and digits, joined by single hyphens.
    pub fn is_valid_namespace(text: &str) -> bool
        ensures grammar { IsTrue result ↔ IsKebabName text.now }
        ensures computed { result ≡ is_kebab_name text.now }
    {
        is_kebab_name(text.as_bytes())
    }
}

impl fmt::Display for PackageName {
    ghost output = { λ n. Some n };

    ghost styled_output = { λ n _. Some n };

    fn fmt<W: fmt::Write>(&self, f: &mut fmt::Formatter<W>) -> fmt::Result {
        f.write_str(self.text.as_str())
    }
}

impl PartialEq for PackageName {
    ghost eq = { bytes_eq };

    ghost laws = { partial_equiv_from_equiv nat_list_eq_equiv };

    fn eq(&self, other: &PackageName) -> bool {
        self.text.as_str() == other.text.as_str()
    }
}

impl Eq for PackageName {
    ghost laws = { nat_list_eq_equiv };
}

impl PartialOrd for PackageName {
    ghost partial_cmp = { λ a b. Some (slice_cmp nat_cmp a b) };

    ghost laws = { texts_po };

    fn partial_cmp(&self, other: &PackageName) -> Option<Ordering> {
        Some(self.cmp(other))
    }
}

impl Ord for PackageName {
    ghost cmp = { slice_cmp nat_cmp };

    ghost total = { nat_list_cmp_total };

    ghost matches_partial_cmp = { λ a b. refl };

    ghost matches_eq = { texts_ties };

    fn cmp(&self, other: &PackageName) -> Ordering {
        self.text.as_str().cmp(other.text.as_str())
    }
}

impl Hash for PackageName {
    ghost hash_input = { λ n. fed.str n };

    ghost respects_eq = { Prim.search (hashing, rules) };

    fn hash<H: Hasher>(&self, state: &mut H) {
        self.text.as_str().hash(state);
    }
}

impl Clone for PackageName {
    ghost is_clone = { λ a b. b ≡ a };

    fn clone(&self) -> Result<PackageName, AllocError> {
        Ok(PackageName {
            text: self.text.clone()?,
        })
    }
}

impl VisitPrefixEncode for PackageName {
    ghost use Rattle.warg_registry.specs.PrefixEncodings.{package_name_encoding_of};

    ghost prefix_encoding_of = { package_name_encoding_of };

    fn visit_pe<BV: ByteVisitor>(
        &self,
        visitor: &mut PrefixEncodeVisitor<'_, BV>,
    ) -> Result<(), AllocError> {
        visitor.visit_str_raw("WARG-PACKAGE-ID-V0")?;
        visitor.visit_str(self.text.as_str())
    }
}

impl VisitBytes for PackageName {
    ghost use Rattle.warg_registry.specs.PrefixEncodings.{package_name_encoding_of};

    ghost bytes_of = { package_name_encoding_of };

    fn visit<BV: ByteVisitor>(&self, visitor: &mut BV) -> Result<(), AllocError> {
        self.visit_bv(visitor)
    }
}
