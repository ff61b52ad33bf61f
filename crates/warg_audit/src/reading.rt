//! Reading all there is, up to a limit.

ghost use Rattle.std.specs.Prelude.{◌≡◌, ◌<◌, ◌≤◌, ◌⊎◌, length, IfOk, IfSome};
ghost use Rattle.warg_audit.specs.Meters.{bytes_left, ReadsToEnd, ReadFailed};
ghost use Rattle.warg_audit.specs.declared.reading.InputError.TheVariants as fault;

use crate::input::Input;
use std::alloc::Global;
use std::io::Read;

/// The greatest length of an input, in bytes, where no other is given.
pub const MAX_INPUT: usize = 16_777_216;

// The bytes asked for in one read.
const CHUNK: usize = 16_384;

/// Why there is no input.
#[derive(Clone, Copy, Debug, PartialEq, Eq)]
pub enum InputError {
    /// A read failed.
    Fault,
    /// There are more bytes than the limit.
    TooLong,
    /// Memory was refused.
    OutOfMemory,
}

/// All bytes of the input, up to a limit in bytes.
pub fn read_all<R: Read>(
    alloc: Global,
    input: &mut Input<R>,
    limit: usize,
) -> Result<Vec<u8>, InputError>
    ensures reading { ReadsToEnd limit R.remaining input.old input.new }
    ensures ok { IfOk result (λ v. IfSome (bytes_left R.remaining input.old)
        (λ bytes. bytes ≡ v.items)) }
    ensures short { IfOk result (λ v. length v.items ≤ limit) }
    ensures long { result ≡ Err fault.TooLong → IfSome (bytes_left R.remaining input.old)
        (λ bytes. limit < length bytes) }
    ensures failed { result ≡ Err fault.Fault → ReadFailed input.old input.new }
    ensures steady { (input.new.errors ≡ input.old.errors) ⊎ (result ≡ Err fault.Fault) }
{
    let mut bytes = Vec::new(alloc);
    let mut buf = [0u8; CHUNK];
    'reads: for _turn in 0..limit.saturating_add(1) {
        let room = CHUNK.min((limit - bytes.len()).saturating_add(1));
        let Ok(count) = input.read(&mut buf[..room]) else {
            return Err(InputError::Fault);
        };
        if count == 0 {
            return Ok(bytes);
        }
        if bytes.extend_from_slice(&buf[..count]).is_err() {
            return Err(InputError::OutOfMemory);
        }
        if bytes.len() > limit {
            return Err(InputError::TooLong);
        }
    }
    unreachable!()
}
