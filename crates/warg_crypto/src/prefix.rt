//! Prefix encoding: bytes of which none are a beginning of others.

ghost use Rattle.std.specs.Prelude.{◌≡◌, ◌++◌, ℕ, List, OnOk, OnErr};
ghost use Rattle.warg_crypto.specs.Prefix.{str_of, unsigned_of};
ghost use Rattle.warg_crypto.specs.Visits.{Stops};

use crate::visit::ByteVisitor;
use std::alloc::AllocError;
use std::fmt;

/// Hands numbers and texts to a visitor of bytes, by prefix encoding.
pub struct PrefixEncodeVisitor<'a, BV> {
    visitor: &'a mut BV,
}

impl<BV> Drop for PrefixEncodeVisitor<'_, BV> {
    fn drop(self)
        ensures { self.exit.0.now ≡ self.entry.visitor.now }
    {
        let PrefixEncodeVisitor { visitor: _ } = self;
    }
}

impl<BV> fmt::Debug for PrefixEncodeVisitor<'_, BV> {
    ghost use Rattle.std.specs.Prelude.{Some, codes};

    ghost debug_output = { λ _. Some (codes "PrefixEncodeVisitor") };

    fn fmt<W: fmt::Write>(&self, f: &mut fmt::Formatter<W>) -> fmt::Result {
        f.write_str("PrefixEncodeVisitor")
    }
}

impl<'a, BV: ByteVisitor> PrefixEncodeVisitor<'a, BV> {
    /// Hands to `visitor`.
    pub fn new(visitor: &'a mut BV) -> PrefixEncodeVisitor<'a, BV>
        ensures same { result.visitor.ghost_name ≡ visitor.entry.ghost_name }
        ensures now { result.visitor.now ≡ visitor.old }
    {
        PrefixEncodeVisitor { visitor }
    }

    /// Appends the bytes of the text alone.
    pub fn visit_str_raw(&mut self, text: &str) -> Result<(), AllocError>
        ensures same { self.new.visitor.ghost_name ≡ self.old.visitor.ghost_name }
        ensures ok { (m : List ℕ) → BV.has_seen self.old.visitor.now m →
            OnOk result (BV.has_seen self.new.visitor.now (m ++ text.now)) }
        ensures err { OnErr result (Stops BV.has_seen BV.refuses self.old.visitor.now
            self.new.visitor.now text.now) }
    {
        self.visitor.visit_bytes(text.as_bytes())
    }

    /// Appends the number as the shortest LEB128: seven bits a byte, least significant first.
    pub fn visit_unsigned(&mut self, number: u64) -> Result<(), AllocError>
        ensures same { self.new.visitor.ghost_name ≡ self.old.visitor.ghost_name }
        ensures ok { (m : List ℕ) → BV.has_seen self.old.visitor.now m →
            OnOk result (BV.has_seen self.new.visitor.now (m ++ unsigned_of number)) }
        ensures err { OnErr result (Stops BV.has_seen BV.refuses
            self.old.visitor.now self.new.visitor.now
            (unsigned_of number)) }
    {
        let mut buffer = [0u8; 10];
        self.visitor
            .visit_bytes(unsigned_bytes(number, &mut buffer))
    }

    /// Appends the text's length in bytes, as `visit_unsigned` does, and then its bytes.
    pub fn visit_str(&mut self, text: &str) -> Result<(), AllocError>
        ensures same { self.new.visitor.ghost_name ≡ self.old.visitor.ghost_name }
        ensures ok { (m : List ℕ) → BV.has_seen self.old.visitor.now m →
            OnOk result (BV.has_seen self.new.visitor.now (m ++ str_of text.now)) }
        ensures err { OnErr result (Stops BV.has_seen BV.refuses
            self.old.visitor.now self.new.visitor.now
            (str_of text.now)) }
    {
        self.visit_unsigned(text.len() as u64)?;
        self.visit_str_raw(text)
    }
}

// The shortest LEB128 of the number, written over `buffer`.
fn unsigned_bytes(number: u64, buffer: &mut [u8; 10]) -> &[u8]
    ensures { result.now ≡ unsigned_of number }
{
    let mut rest = number;
    let mut len = 0;
    'groups: while rest >= 128 {
        buffer[len] = (rest % 128) as u8 + 128;
        rest /= 128;
        len += 1;
    }
    buffer[len] = rest as u8;
    &buffer[..len + 1]
}

/// A value with a prefix encoding.
pub trait VisitPrefixEncode {
    // The bytes of a value.
    ghost prefix_encoding_of: { Self → List ℕ };

    /// Appends the prefix encoding of the value to what the visitor saw. Where the visitor refuses
    /// a piece, it has seen a beginning of it.
    fn visit_pe<BV: ByteVisitor>(
        &self,
        visitor: &mut PrefixEncodeVisitor<'_, BV>,
    ) -> Result<(), AllocError>
        ensures same { visitor.new.visitor.ghost_name ≡ visitor.old.visitor.ghost_name }
        ensures ok { (m : List ℕ) → BV.has_seen visitor.old.visitor.now m →
            OnOk result (BV.has_seen visitor.new.visitor.now (m ++ prefix_encoding_of self.now)) }
        ensures err { OnErr result (Stops BV.has_seen BV.refuses visitor.old.visitor.now
            visitor.new.visitor.now
            (prefix_encoding_of self.now)) };

    /// The same for a plain visitor of bytes.
    fn visit_bv<BV: ByteVisitor>(&self, visitor: &mut BV) -> Result<(), AllocError>
        ensures ok { (m : List ℕ) → BV.has_seen visitor.old m →
            OnOk result (BV.has_seen visitor.new (m ++ prefix_encoding_of self.now)) }
        ensures err { OnErr result (Stops BV.has_seen BV.refuses visitor.old visitor.new
            (prefix_encoding_of self.now)) }
    {
        let mut encoder = PrefixEncodeVisitor::new(visitor);
        self.visit_pe(&mut encoder)
    }
}
