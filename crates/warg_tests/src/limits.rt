//! Inputs of the greatest length and of one byte more.
use crate::asking::{ID_WORDS, LOG_WORDS, answers};
use std::alloc::Global;
use std::test::Fail;

// The id of the package record of 8_388_603 bytes 61.
const LARGE: &str = "sha256:558e77d06fd018f0b4d5d445c4c6d31bcd2e852baa172a99242b6230dc8b59f6\n";

// Whether an input is answered that it is too long.
fn is_too_long(alloc: Global, words: &[&str], input: &[u8]) -> Result<bool, Fail> {
    answers(alloc, words, input, "too long\n", 2)
}

#[test]
fn keeps_the_limit(rt: HostRuntime) -> Result<(), Fail> {
    let fault = "refused 0 ProtobufEnvelope.BadKey\n";
    let mut zeros = vec![in rt.alloc(); b'0'; 16_777_216]?;
    assert!(rt; answers(rt.alloc(), ID_WORDS, zeros.as_slice(), fault, 1)?);
    zeros.push(b'0')?;
    assert!(rt; is_too_long(rt.alloc(), ID_WORDS, zeros.as_slice())?);
    assert!(rt; is_too_long(rt.alloc(), LOG_WORDS, zeros.as_slice())?);
    Ok(())
}

#[test]
fn reads_a_line_of_the_greatest_length(rt: HostRuntime) -> Result<(), Fail> {
    let mut line = Vec::new(rt.alloc());
    line.extend_from_slice(b"0afbffff03")?;
    for _ in 0..8_388_603u32 {
        line.extend_from_slice(b"61")?;
    }
    assert_eq!(rt; line.len(), 16_777_216);
    assert!(rt; answers(rt.alloc(), ID_WORDS, line.as_slice(), LARGE, 0)?);
    line.push(b'\n')?;
    assert!(rt; is_too_long(rt.alloc(), ID_WORDS, line.as_slice())?);
    Ok(())
}
