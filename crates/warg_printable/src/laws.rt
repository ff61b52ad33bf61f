//! Laws of printed texts. They have no effect.

ghost use Rattle.std.specs.Prelude.{◌≡◌, ◌≢◌, ◌==◌, ◌≤◌, ◌<◌, ℕ, Bool, List, Some, length, slice_index};
ghost use Rattle.std.specs.Str.{IsUtf8, NoCharPasses, NonePass, chars};
ghost use Rattle.warg_printable.specs.Back.{unprintable};
ghost use Rattle.warg_printable.specs.Json.{json_printable};
ghost use Rattle.warg_printable.specs.Printable.{escaped, is_escaped, IsPrintable, printable_word};

/// No control character, no separator of lines and no mark of direction stands in what is printed.
pub fn is_printable()
    ensures { (spaces : Bool) (text : List ℕ) → IsPrintable (escaped spaces text) }
{}

/// So no byte of it is below a space or DEL.
pub fn has_no_control_byte()
    ensures { (text : List ℕ) → IsPrintable text → (k : ℕ) → k < length text →
        slice_index text k < 128 → (32 ≤ slice_index text k) × (slice_index text k ≢ 127) }
{}

/// No space stands in what is printed as a word.
pub fn word_has_no_space()
    ensures { (text : List ℕ) → NoCharPasses (λ c. c == 32) (printable_word text) }
{}

/// What is printed reads back, so two texts that are printed alike are one.
pub fn reads_back()
    ensures { (spaces : Bool) (text : List ℕ) → IsUtf8 text →
        unprintable (escaped spaces text) ≡ Some text }
{}

/// A text with no such character and no backslash is printed as it is.
pub fn stays()
    ensures { (spaces : Bool) (text : List ℕ) → IsUtf8 text →
        NonePass (is_escaped spaces) (chars text) → escaped spaces text ≡ text }
{}

/// No hidden character stands in JSON that is printed.
pub fn json_is_printable()
    ensures { (text : List ℕ) → IsPrintable (json_printable text) }
{}

/// JSON with no hidden character in it is printed as it is.
pub fn printable_json_stays()
    ensures { (text : List ℕ) → IsUtf8 text → IsPrintable text → json_printable text ≡ text }
{}
