//! Visitors, which take bytes in, and values, which hand their bytes to a visitor.

ghost use Rattle.std.specs.Prelude.{◌≡◌, ◌++◌, ℕ, List, OnOk, OnErr, ⊤};
ghost use Rattle.warg_crypto.specs.Visits.{Stops};

use std::alloc::AllocError;

/// Takes bytes in, piece by piece.
///
/// The least impl says which bytes a visitor has seen; `refuses` may be left out, and then says
/// nothing. Here one that counts the bytes, and refuses those that it can't count:
///
/// ```
/// #[derive(Drop)]
/// struct Counter {
///     count: usize,
/// }
///
/// impl ByteVisitor for Counter {
///     ghost has_seen = { λ counter m. counter.count ≡ length m };
///
///     fn visit_bytes(&mut self, bytes: &[u8]) -> Result<(), AllocError> {
///         match self.count.checked_add(bytes.len()) {
///             Some(count) => {
///                 self.count = count;
///                 Ok(())
///             }
///             None => Err(AllocError),
///         }
///     }
/// }
/// ```
///
/// A clause of a function with a parameter `visitor: &mut V`, where `V: ByteVisitor`, names what was
/// seen as `V.has_seen`, and the bytes of a value of `T: VisitBytes` as `T.bytes_of`:
///
/// ```
/// ensures { (m : List ℕ) → V.has_seen visitor.old m → OnOk result (V.has_seen visitor.new (m ++ T.bytes_of value.now)) }
/// ```
pub trait ByteVisitor {
    // The visitor has seen these bytes. A hasher does not store them.
    ghost has_seen: { Self → List ℕ → Type 0 };

    // The visitor may refuse these bytes.
    ghost refuses: { Self → List ℕ → Type 0 } = { λ _ _. ⊤ };

    /// Takes the bytes in, or refuses them all.
    fn visit_bytes(&mut self, bytes: &[u8]) -> Result<(), AllocError>
        ensures ok { (m : List ℕ) → has_seen self.old m →
            OnOk result (has_seen self.new (m ++ bytes.now)) }
        ensures same { (m : List ℕ) → has_seen self.old m → OnErr result (has_seen self.new m) }
        ensures refused { OnErr result (refuses self.old bytes.now) };
}

/// Hands its bytes to a visitor.
pub trait VisitBytes {
    // The bytes of a value.
    ghost bytes_of: { Self → List ℕ };

    /// Appends the bytes of the value to what the visitor saw. Where the visitor refuses a piece,
    /// it has seen a beginning of them.
    fn visit<V: ByteVisitor>(&self, visitor: &mut V) -> Result<(), AllocError>
        ensures ok { (m : List ℕ) → V.has_seen visitor.old m →
            OnOk result (V.has_seen visitor.new (m ++ bytes_of self.now)) }
        ensures err { OnErr result (Stops V.has_seen V.refuses visitor.old visitor.new
            (bytes_of self.now)) };
}

impl ByteVisitor for Vec<u8> {
    ghost has_seen = { λ v m. v.items ≡ m };

    fn visit_bytes(&mut self, bytes: &[u8]) -> Result<(), AllocError> {
        self.extend_from_slice(bytes)
    }
}

impl VisitBytes for &[u8] {
    ghost bytes_of = { λ s. s.now };

    fn visit<V: ByteVisitor>(&self, visitor: &mut V) -> Result<(), AllocError> {
        visitor.visit_bytes(*self)
    }
}

impl VisitBytes for Vec<u8> {
    ghost bytes_of = { λ v. v.items };

    fn visit<V: ByteVisitor>(&self, visitor: &mut V) -> Result<(), AllocError> {
        visitor.visit_bytes(self.as_slice())
    }
}

impl<T: VisitBytes> VisitBytes for &T {
    ghost bytes_of = { λ r. T.bytes_of r.now };

    fn visit<V: ByteVisitor>(&self, visitor: &mut V) -> Result<(), AllocError> {
        (**self).visit(visitor)
    }
}

impl<A: VisitBytes, B: VisitBytes> VisitBytes for (A, B) {
    ghost bytes_of = { λ p. A.bytes_of p.0 ++ B.bytes_of p.1 };

    fn visit<V: ByteVisitor>(&self, visitor: &mut V) -> Result<(), AllocError> {
        self.0.visit(visitor)?;
        self.1.visit(visitor)
    }
}
