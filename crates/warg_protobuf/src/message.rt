//! What a message is: its table, what its fields say, and how it is read and written.

ghost use Rattle.std.specs.Prelude.{◌≡◌, ◌≢◌, ◌<◌, ◌^◌, ◌++◌, length, List, Result, Ok, Err, IfOk, IfErr, OnOk};
ghost use Rattle.warg_protobuf.specs.declared.error.WireError.{WireError};
ghost use Rattle.warg_protobuf.specs.declared.error.WireError.TheVariants.{OutOfMemory};
ghost use Rattle.warg_protobuf.specs.Field.{Field};
ghost use Rattle.warg_protobuf.specs.Meaning.{Agrees, IsMessage};
ghost use Rattle.warg_protobuf.specs.Table.{Table, HasFault};
ghost use Rattle.warg_protobuf.specs.Values.{message_of};
ghost use Rattle.warg_protobuf.specs.Views.{ReturnsOrNoMemory};
ghost use Rattle.warg_protobuf.specs.Writing.{bytes_of};

use crate::error::WireError;
use std::alloc::{AllocError, Global};

/// What a message is as plain data, what its fields say, how it is read and how it is written.
pub(crate) trait Codec: Drop {
    ghost table: { Table };

    /// The message as plain data.
    ghost View: { Type 0 };

    ghost view: { Self → View };

    /// What the fields say.
    ghost Says: { List Field → View → Type 0 };

    /// The same, computed.
    ghost value: { List Field → Result View WireError };

    /// Whether reading takes memory, by what the bytes say.
    ghost TakesMemory: { Result View WireError → Type 0 };

    /// Reads the message, all of the bytes, in one pass.
    fn read(alloc: Global, bytes: &[u8]) -> Result<Self, WireError>
        ensures given { ReturnsOrNoMemory view result (message_of table value bytes.now) }
        ensures memory { IfErr result (λ e. e ≡ OutOfMemory →
            TakesMemory (message_of table value bytes.now)) };

    /// The fields that are written.
    ghost written_fields: { View → List Field };

    /// That each part can be one of a message's.
    ghost is_sound: { View → Type 0 };

    /// Appends the fields that are written.
    fn write(&self, alloc: Global, out: &mut Vec<u8>) -> Result<(), AllocError>
        ensures spelled { OnOk result (out.new.items ≡ out.old.items ++
            bytes_of (written_fields (view self.now))) }
        ensures sound { OnOk result (is_sound (view self.now)) };

    /// What is computed of fields is the only value that they say, and what is written is read again. This has no effect.
    fn laws()
        ensures agrees { Agrees table value Says }
        ensures written { (v : View) → is_sound v → length (bytes_of (written_fields v)) < 2 ^ 64 →
            IsMessage table Says (bytes_of (written_fields v)) v };
}

/// The bytes of a message.
pub(crate) fn write_message<V: Codec>(alloc: Global, value: &V) -> Result<Vec<u8>, AllocError>
    ensures spelled { IfOk result (λ v. v.items ≡ bytes_of (V.written_fields (V.view value.now))) }
    ensures sound { OnOk result (V.is_sound (V.view value.now)) }
{
    let mut out = Vec::new(alloc);
    value.write(alloc, &mut out)?;
    Ok(out)
}

/// A message of the protocol: read from bytes, and written.
pub trait Message: Codec {
    /// Reads the message, all of the bytes.
    final fn decode(alloc: Global, bytes: &[u8]) -> Result<Self, WireError>
    where
        Self: Sized,
        // What is read is what the bytes say.
        ensures found { IfOk result (λ v. IsMessage Self.table Self.Says bytes.now (Self.view v)) }
        ensures fault { IfErr result (λ e. e ≢ OutOfMemory → HasFault Self.table bytes.now e) }

        // What the bytes say is read, unless memory runs out.
        ensures only { (v : Self.View) → IsMessage Self.table Self.Says bytes.now v →
            ReturnsOrNoMemory Self.view result (Ok v) }
        ensures only_fault { (e : WireError) → HasFault Self.table bytes.now e →
            ReturnsOrNoMemory Self.view result (Err e) }
        ensures computed { ReturnsOrNoMemory Self.view result
            (message_of Self.table Self.value bytes.now) }

        // It runs out only where reading takes any.
        ensures memory { IfErr result (λ e. e ≡ OutOfMemory →
            Self.TakesMemory (message_of Self.table Self.value bytes.now)) }
    {
        Self::laws();
        Self::read(alloc, bytes)
    }

    /// The message's bytes, by rising number; a part at its default is left out.
    final fn encode(&self, alloc: Global) -> Result<Vec<u8>, AllocError>
    where
        Self: Sized,
        ensures spelled { IfOk result (λ v. v.items ≡
            bytes_of (Self.written_fields (Self.view self.now))) }
        ensures read_again { IfOk result
            (λ v. IsMessage Self.table Self.Says v.items (Self.view self.now)) }
    {
        Self::laws();
        write_message::<Self>(alloc, self)
    }
}

impl<V: Codec> Message for V {}
