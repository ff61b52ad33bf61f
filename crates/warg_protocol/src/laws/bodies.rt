//! Bodies of envelopes, read of the members that were asked for.
ghost use Rattle.std.specs.Prelude.{◌≡◌, ℕ, suc, List, codes, true};
ghost use Rattle.serde_json.specs.Data.{Data};
ghost use Rattle.warg_envelope.specs.EnvelopeJson.{body_in, published_in};
ghost use Rattle.warg_saved_states.specs.Asked.{IsAskedOf, is_asked};

/// What a body reads of the members that [`read_asked`](crate::json::read_asked) made a value of is what it reads of the
/// whole, or the same fault, where `contentBytes`, `keyId` and `signature` are asked for, and `registryIndex` of a
/// published one. It has no effect.
pub fn read_of_asked_members()
    ensures body { (names : List (List ℕ)) (n : ℕ) (whole value : Data)
        → is_asked names (codes "contentBytes") ≡ true → is_asked names (codes "keyId") ≡ true
        → is_asked names (codes "signature") ≡ true
        → IsAskedOf names (suc n) whole value → body_in value ≡ body_in whole }
    ensures published { (names : List (List ℕ)) (n : ℕ) (whole value : Data)
        → is_asked names (codes "contentBytes") ≡ true → is_asked names (codes "keyId") ≡ true
        → is_asked names (codes "signature") ≡ true → is_asked names (codes "registryIndex") ≡ true
        → IsAskedOf names (suc n) whole value → published_in value ≡ published_in whole }
{}
