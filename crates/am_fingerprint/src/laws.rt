//! Facts about the definitions alone: each is the contract of a function with an empty body.
ghost use Rattle.std.specs.Prelude.{slice_index, ◌<◌, ◌≡◌, ℕ, List, [], ◌∷◌, ◌++◌, length, Option};
ghost use Rattle.std.specs.Prelude.{Some, None, codes};
ghost use Rattle.am_fingerprint.specs.declared.limits.TheConstants.{FINGERPRINT_BYTES};
ghost use Rattle.am_fingerprint.specs.Fingerprint.{AreParts, joined_parts, fingerprint_of};

/// A fingerprint has 16 bytes.
pub fn fingerprints_have_a_length()
    ensures bytes { FINGERPRINT_BYTES ≡ 16 }
    ensures length { (parts : List (Option (List ℕ)))
        → length (fingerprint_of parts) ≡ FINGERPRINT_BYTES }
    ensures below { (parts : List (Option (List ℕ))) (i : ℕ)
        → slice_index (fingerprint_of parts) i < 256 }
{}

/// Different parts have different joined bytes.
#[tactic(auto, using(crate::proofs::PartLemmas::one_list))]
pub fn one_list_of_parts_has_these_bytes()
    ensures same_parts { (first second : List (Option (List ℕ))) → AreParts first → AreParts second
        → joined_parts first ≡ joined_parts second → first ≡ second }
{}

/// An example of joined bytes: the universe file `{"labels":[]}` and the question `any`, and
/// nothing else.
pub fn an_example_of_joined_parts()
    ensures joined { joined_parts (Some (codes "{\"labels\":[]}") ∷ None ∷ None ∷ None ∷ None
        ∷ Some (codes "any") ∷ [])
        ≡ 1 ∷ 0 ∷ 0 ∷ 0 ∷ 0 ∷ 0 ∷ 0 ∷ 0 ∷ 13 ∷ (codes "{\"labels\":[]}"
        ++ (0 ∷ 0 ∷ 0 ∷ 0 ∷ 1 ∷ 0 ∷ 0 ∷ 0 ∷ 0 ∷ 0 ∷ 0 ∷ 0 ∷ 3 ∷ codes "any")) }
    ensures length { length (joined_parts (Some (codes "{\"labels\":[]}") ∷ None ∷ None ∷ None
        ∷ None ∷ Some (codes "any") ∷ [])) ≡ 38 }
{}
