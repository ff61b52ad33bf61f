//! A law of objects. It has no effect.

ghost use Rattle.std.specs.Prelude.{ℕ, List};
ghost use Rattle.tool_layout.specs.Members.Objects.{object_text};
ghost use Rattle.warg_printable.specs.Lines.{IsPrintedText};

/// An object is a line, and no hidden character stands in it, whatever its members are.
pub fn object_is_printable()
    ensures { (command members : List ℕ) (status : ℕ) →
        IsPrintedText (object_text command members status) }
{}
