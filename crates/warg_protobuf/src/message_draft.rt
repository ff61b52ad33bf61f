//! Reading a message in one pass: what it keeps grows as the bytes are read.

ghost use Rattle.std.specs.Prelude.{◌≡◌, Ok, IfErr};
ghost use Rattle.warg_protobuf.specs.declared.error.WireError.TheVariants.{OutOfMemory};
ghost use Rattle.warg_protobuf.specs.Field.{Field};
ghost use Rattle.warg_protobuf.specs.Reading.{fields_of, payload_fault, unless};
ghost use Rattle.warg_protobuf.specs.Table.{Table, takes};
ghost use Rattle.warg_protobuf.specs.Values.{kept_of};
ghost use Rattle.warg_protobuf.specs.Views.{field_view, ReturnsOrNoMemory};

use crate::error::WireError;
use crate::field::{RawField, read_field};
use std::alloc::Global;

/// What is kept of a message's fields while they are read.
pub(crate) trait MessageDraft<'a>: Drop {
    ghost table: { Table };

    /// What is kept, as plain data.
    ghost KeptData: { Type 0 };

    ghost kept_data: { Self → KeptData };

    /// What is kept of no fields.
    ghost empty: { KeptData };

    ghost with_field: { KeptData → Field → KeptData };

    /// Whether it takes memory.
    ghost TakesMemory: { Type 0 };

    fn new(alloc: Global) -> Self
        ensures { kept_data result ≡ empty };

    /// Whether a field of this number may have this wire type.
    fn takes(number: u32, wire_type: u32) -> bool
        ensures { result ≡ takes table number wire_type };

    /// Keeps what counts of the next field, or finds the fault of its payload.
    fn grow(&mut self, field: RawField<'a>) -> Result<(), WireError>
        ensures given { let f = field_view field.entry in
            ReturnsOrNoMemory (λ _. kept_data self.new) result
            (unless (payload_fault table f.number f.payload)
            (Ok (with_field (kept_data self.old) f))) }
        ensures memory { IfErr result (λ e. e ≡ OutOfMemory → TakesMemory) };
}

/// Reads the fields of a message, all of the bytes, each once.
pub(crate) fn read_into<'a, D: MessageDraft<'a>>(
    draft: &mut D,
    bytes: &'a [u8],
) -> Result<(), WireError>
    ensures given { ReturnsOrNoMemory (λ _. D.kept_data draft.new) result
        (kept_of D.with_field (D.kept_data draft.old) (fields_of D.table bytes.now)) }
    ensures memory { IfErr result (λ e. e ≡ OutOfMemory → D.TakesMemory) }
{
    let mut rest = bytes;
    while !rest.is_empty() {
        let (field, after) = read_field::<D>(rest)?;
        draft.grow(field)?;
        rest = after;
    }
    Ok(())
}

/// The draft, after it has read the fields of these bytes too.
pub(crate) fn grown<'a, D: MessageDraft<'a>>(mut draft: D, bytes: &'a [u8]) -> Result<D, WireError>
    ensures given { ReturnsOrNoMemory D.kept_data result
        (kept_of D.with_field (D.kept_data draft) (fields_of D.table bytes.now)) }
    ensures memory { IfErr result (λ e. e ≡ OutOfMemory → D.TakesMemory) }
{
    read_into(&mut draft, bytes)?;
    Ok(draft)
}

/// What is kept of the fields of a message, all of the bytes.
pub(crate) fn read_draft<'a, D: MessageDraft<'a>>(
    alloc: Global,
    bytes: &'a [u8],
) -> Result<D, WireError>
    ensures given { ReturnsOrNoMemory D.kept_data result
        (kept_of D.with_field D.empty (fields_of D.table bytes.now)) }
    ensures memory { IfErr result (λ e. e ≡ OutOfMemory → D.TakesMemory) }
{
    grown(D::new(alloc), bytes)
}
