//! A log whose kind is given by rules.
ghost use Rattle.std.specs.Prelude.{◌≡◌, ◌↔◌, ◌++◌, ℕ, Bool, true, List, [], Option, Result};
ghost use Rattle.warg_envelope.specs.EnvelopeData.{DecodedEnvelope, EnvelopeData};
ghost use Rattle.warg_envelope.specs.EnvelopeRelations.{ReadsEnvelope};
ghost use Rattle.warg_envelope.specs.Faults.{RecordFault, fault_of};
ghost use Rattle.warg_envelope.specs.Readings.{Reading};
ghost use Rattle.warg_envelope.specs.ReadingWords.{envelope_in};
ghost use Rattle.warg_log.specs.History.{own_after, own_offence};
ghost use Rattle.warg_log.specs.KindOfRules.{effects_of, kind_of};
ghost use Rattle.warg_log.specs.Rules.{Event, LogOffence, Rules};
ghost use Rattle.warg_log.specs.Rules as rule;
ghost use Rattle.warg_log_laws.specs.RuledLogs.{RuledBy};
ghost use Rattle.warg_log_records.specs.Kinds.{SignatureRelation, IsAccepted};
ghost use Rattle.warg_log_records.specs.RecordData.{RecordData};
ghost use Rattle.warg_log_records.specs.Walks.{AllLawful};
ghost use Rattle.warg_replay.specs.AuditedLog.AuditedWords.{IsAudited};
ghost use Rattle.warg_replay.specs.LogWords.{IsRun};
ghost use Rattle.warg_replay.specs.Logs.{LogOf};
ghost use Rattle.warg_replay.specs.declared.replay.RunError.{RunError};

use warg_replay::Validator;

/// A log whose kind is given by rules: by what its own entries ask, say and add up to. What the laws of this crate
/// say is in words of these members.
pub trait RuledLog: Validator {
    // The kind's own entries, as plain data.
    ghost Own: { Type 0 };

    // What they add up to.
    ghost OwnView: { Type 0 };

    // What may be wrong with them.
    ghost OwnOffence: { Type 0 };

    // The rules.
    ghost rules: { Rules Self.Permission Own OwnView OwnOffence };

    // Whether two permissions are one.
    ghost same: { Self.Permission → Self.Permission → Bool };

    // What content bytes say, or their first fault.
    ghost read: { List ℕ → Result (RecordData Self.Permission Own) RecordFault };

    // What a log's own entries add up to, as one list.
    ghost listed: { List (Event Own) → OwnView };

    // The four above, as one word for contracts: `is_held L.ruled ..`.
    ghost ruled: { RuledBy rules same read listed };

    // A record as plain data.
    ghost record_data: { Self.Record → RecordData Self.Permission Own };

    // What a state stands for.
    ghost says: { Self → rule.View Self.Permission OwnView };

    // The offence that an error names; out of memory alone names none.
    ghost offence_named_by: { Self.Error → Option (LogOffence Self.Permission OwnOffence) };

    // The log, and how its records are read, by the rules: for the words of logs, as in
    // `named_cause L.ruled_log L.ruled_reading`.
    ghost ruled_log: { LogOf (kind_of rules same read listed) says offence_named_by };

    ghost ruled_reading: { Reading read record_data fault_of };

    // What a longer log keeps of what a log's own entries add up to.
    ghost keeps: { OwnView → OwnView → Type 0 };

    // The content bytes are the record.
    ghost IsContent: { List ℕ → RecordData Self.Permission Own → Type 0 };

    // The content bytes are no record, by their first fault.
    ghost HasContentFault: { List ℕ → RecordFault → Type 0 };

    /// What is computed of bytes is the envelope that they are, or their first fault.
    fn reading_computes()
        ensures { (bytes : List ℕ) →
            ReadsEnvelope IsContent HasContentFault (envelope_in ruled_reading bytes) bytes };

    ghost one_permission_each: { (p q : Self.Permission) → same p q ≡ true → p ≡ q };

    // In version 1 the signer of an Init has to own its key.
    ghost owns_its_key: { rules.by_own_key 1 ≡ true };

    ghost after_none: { (v : OwnView) → v ≡ rules.after v [] };

    ghost after_append: { (v : OwnView) (xs ys : List (Event Own)) →
        rules.after v (xs ++ ys) ≡ rules.after (rules.after v xs) ys };

    // Lawful entries add up to the same one by one and as one list.
    ghost by_list: { (es : List (Event Own)) →
        AllLawful (own_after rules) (own_offence rules) rules.start es →
        listed es ≡ rules.after rules.start es };

    ghost longer_keeps: { (b : SignatureRelation) (es fs : List EnvelopeData) →
        IsAccepted (kind_of rules same read listed) b (es ++ fs) →
        keeps ((kind_of rules same read listed).view_of es).state.own_state
        ((kind_of rules same read listed).view_of (es ++ fs)).state.own_state };

    // The members of every log say what the rules do.
    ghost effects_by_rules: { Self.Validator.effects ≡ effects_of rules same read };

    ghost holds_by_rules: { (s : Self) (k : List ℕ) (p : Self.Permission) →
        Self.Validator.holds (Self.Validator.view s) k p ≡ (says s).state.authority.holds k p };

    ghost audited_by_rules: { (b : SignatureRelation) (s : Self)
        (records : List (DecodedEnvelope Self.Record)) →
        IsAudited Self.Validator.log Self.Record.reading b s records →
        IsAudited ruled_log ruled_reading b s records };

    ghost run_by_rules: { (b : SignatureRelation) (strings : List (List ℕ))
        (answer : Result Self (RunError Self.Error)) →
        (IsRun Self.Validator.log Self.Record.reading b strings answer) ↔
        (IsRun ruled_log ruled_reading b strings answer) };
}
