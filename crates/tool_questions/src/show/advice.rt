//! What a publisher can do about a refused record.

ghost use Rattle.std.specs.Prelude.{◌≡◌};
ghost use Rattle.tool_questions.specs.Show.Advice.{advice_on};

/// What a publisher can do about a record that is refused for the case of this name.
pub fn advice(name: &str) -> &'static str
    ensures { result.now ≡ advice_on name.now }
{
    match name {
        "FirstEntryIsNotInit" | "InitialRecordDoesNotInit" => {
            "begin the log with a record whose first entry is an init"
        }
        "KeyIDNotRecognized" =>
            "sign with a known key, an init with its own, or have a known key grant to yours first",
        "InitialEntryAfterBeginning" => {
            "leave the init out: the log has begun, and further keys come in by grants"
        }
        "UnauthorizedAction" => {
            "have a key that holds the permission sign, or ask its owner for a grant"
        }
        "PermissionNotFoundToRevoke" =>
            "leave out what the key does not hold, and name each permission once",
        "SignatureError" =>
            "ask for the right kind and scheme (--toy, --verified), or sign with the named key",
        "RecordHashDoesNotMatch" => {
            "another record came first: fetch the log, name its head and sign again"
        }
        "PreviousHashOnFirstRecord" => "name no record before the first one",
        "NoPreviousHashAfterInit" => "name the log's head as the record before",
        "ProtocolVersionNotAllowed" =>
            "write version 1 into the record, the newest of the protocol that is known here",
        "TimestampLowerThanPrevious" => "set the clock: the time lies before that of the head",
        "EmptyGrant" => "name a permission in the grant",
        "ReleaseOfReleased" =>
            "choose another version: a released one stays so, also if it is yanked",
        "YankOfUnreleased" => "look for the version among the releases",
        "YankOfYanked" => "nothing is left to do",
        "InvalidNamespace" => {
            "choose words of lower-case letters and digits, a letter first, with dashes between"
        }
        "NamespaceAlreadyDefined" => "choose another name: each is defined or imported once",
        _ => "write the envelope anew, or ask for the right kind: it is no record of such a log",
    }
}
