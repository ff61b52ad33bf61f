//! Visitors that refuse bytes.

ghost use Rattle.std.specs.Prelude.{◌≡◌};

use crate::crypto::values::is;
use std::alloc::{AllocError, Global};
use std::process::Abort;
use warg_crypto::{ByteVisitor, VisitBytes};

// Takes so many pieces, and refuses the next one.
#[derive(Drop)]
struct Stopping {
    pieces: usize,
    bytes: Vec<u8>,
}

impl ByteVisitor for Stopping {
    ghost has_seen = { λ v m. v.bytes.items ≡ m };

    fn visit_bytes(&mut self, bytes: &[u8]) -> Result<(), AllocError> {
        if self.pieces == 0 {
            return Err(AllocError);
        }
        self.pieces -= 1;
        self.bytes.extend_from_slice(bytes)
    }
}

// What a visitor of so many pieces sees of the value, and whether it refused one more.
fn is_stopped<T: VisitBytes>(
    rt: &impl Abort,
    alloc: Global,
    content: &T,
    pieces: usize,
    want: &[u8],
    answer: Result<(), AllocError>,
) {
    let bytes = Vec::new(alloc);
    let mut stopping = Stopping { pieces, bytes };
    is(rt, content.visit(&mut stopping), answer);
    is(rt, stopping.bytes.as_slice(), want);
}

#[test]
fn refused_pieces(rt: HostRuntime) {
    let three = (b"ab".as_slice(), (b"c".as_slice(), b"d".as_slice()));
    let rows: [(&[u8], Result<(), AllocError>); 4] = [
        (b"", Err(AllocError)),
        (b"ab", Err(AllocError)),
        (b"abc", Err(AllocError)),
        (b"abcd", Ok(())),
    ];
    for (pieces, (want, answer)) in rows.iter().enumerate() {
        is_stopped(&rt, rt.alloc(), &three, pieces, *want, *answer);
    }
}
