//! What calls come to, one after another. It has no effect.
ghost use Rattle.std.specs.Prelude.{List, Option, Some};
ghost use Rattle.warg_c.specs.AnyLogs.{IsNew};
ghost use Rattle.warg_c.specs.Runs.{AreVerified, Call, IsRun, HoldsOfAll, appends_all, is_log_of, envelopes_taken};
ghost use Rattle.warg_c.specs.declared.any_log.AnyLog.{AnyLog};
ghost use Rattle.warg_p256.specs.Scheme.{p256_belongs};
ghost use Rattle.warg_log_records.specs.Kinds.{SignatureRelation};

/// A run of `warg_append` and `warg_append_signed`, under every relation that holds of all that the caller said yes to,
/// and of all signatures of `ecdsa-p256` where the library verified one.
pub fn runs()
    // A log of no records has just the envelopes that were taken then, all lawful, and its state stands for them.
    ensures begun { (b : SignatureRelation) (calls : List Call) (old : AnyLog) (new : Option AnyLog) →
        HoldsOfAll b calls → IsRun calls (Some old) new → IsNew old →
        is_log_of b (envelopes_taken calls) new }

    // Any other log, and one that was resumed, goes on with just these: what was accepted still is, with them.
    ensures continued { (b : SignatureRelation) (calls : List Call) (old : AnyLog)
        (new : Option AnyLog) → HoldsOfAll b calls → IsRun calls (Some old) new →
        appends_all b (envelopes_taken calls) old new }

    // Where the library verified each, nothing rests on the caller's word: all are lawful by signatures of `ecdsa-p256`.
    ensures verified { (calls : List Call) (old : AnyLog) (new : Option AnyLog) →
        AreVerified calls → IsRun calls (Some old) new → IsNew old →
        is_log_of p256_belongs (envelopes_taken calls) new }
{}
