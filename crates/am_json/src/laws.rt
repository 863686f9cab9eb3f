//! The limit of files, and examples of forms and of what reading gives.

ghost use Rattle.std.specs.Prelude.{◌≡◌, [], ◌∷◌, Some, Ok, Err, true, false, codes};
ghost use Rattle.serde_json.specs.Data.{boolean, string};
ghost use Rattle.am_universe.specs.declared.kind.Kind.TheVariants as kinds;
ghost use Rattle.am_json.specs.declared.limits.TheConstants.{MAX_FILE_BYTES};
ghost use Rattle.am_json.specs.FormExamples.{array_of, object_of, refused_at, three_fields};
ghost use Rattle.am_json.specs.FormExamples.{three_items, two_checks, three_objections};
ghost use Rattle.am_json.specs.Json.{only_fields};
ghost use Rattle.am_json.specs.Objections.{a_fault, first_fault, patterns_before};
ghost use Rattle.am_json.specs.OptionalItems.{read_optional_array};
ghost use Rattle.am_json.specs.Reading.{as_object, as_text, check_only_fields, required_text};
ghost use Rattle.am_json.specs.Reading.{read_boolean_or, read_counted, read_items_or_null};

/// A file has at most 16,777,216 bytes.
pub fn files_have_a_limit()
    ensures bytes { MAX_FILE_BYTES ≡ 16777216 }
{}

/// Examples of what forms object to, what they take a value for, and what reading gives:
/// - `kind`: a text is not an object;
/// - `unknown`: of two unknown fields, only the one whose key comes first is objected to; a field
///   that is `null` is absent;
/// - `required`: a required text must be present, and must be a text;
/// - `default`: an absent boolean is the default;
/// - `items` and `taken`: each item that is not a text is objected to at its position, and is taken
///   for the empty text;
/// - `counted`: a count above the limit is objected to first, and then each item that is not a
///   text;
/// - `optional`: a field whose value is not an array is objected to at the field;
/// - `or_null`: an object is neither an array nor `null`, which has no items;
/// - `both` and `stops`: if two checks fail, both are objected to, and reading stops at the first;
/// - `first` and `before`: the first fault, and the patterns before it;
/// - `only` and `whole`: of an object, only the fields with these names stay, and of an array all
///   items.
pub fn forms_by_example()
    ensures kind { (as_object (string (codes "a"))).objections
        ≡ a_fault (refused_at kinds.Shape []) ∷ [] }
    ensures unknown { (check_only_fields (codes "a" ∷ []) three_fields).objections
        ≡ a_fault (refused_at kinds.UnknownField (codes "/b")) ∷ [] }
    ensures required { (required_text (codes "b") three_fields).objections
        ≡ a_fault (refused_at kinds.Shape (codes "/b")) ∷ [] }
    ensures default { (read_boolean_or false (codes "y") three_fields).result ≡ Ok false }
    ensures items { (read_counted 3 as_text three_items).objections
        ≡ a_fault (refused_at kinds.Shape (codes "/1"))
        ∷ a_fault (refused_at kinds.Shape (codes "/2")) ∷ [] }
    ensures taken { (read_counted 3 as_text three_items).taken ≡ codes "db" ∷ [] ∷ [] ∷ [] }
    ensures counted { (read_counted 2 as_text three_items).objections
        ≡ a_fault (refused_at kinds.Limit []) ∷ a_fault (refused_at kinds.Shape (codes "/1"))
        ∷ a_fault (refused_at kinds.Shape (codes "/2")) ∷ [] }
    ensures optional { (read_optional_array (codes "b") 2 as_text three_fields).objections
        ≡ a_fault (refused_at kinds.Shape (codes "/b")) ∷ [] }
    ensures or_null { (read_items_or_null 2 as_text (object_of [])).result
        ≡ Err (refused_at kinds.Shape []) }
    ensures both { two_checks.objections
        ≡ a_fault (refused_at kinds.Empty []) ∷ a_fault (refused_at kinds.Limit []) ∷ [] }
    ensures stops { two_checks.result
        ≡ Err (refused_at kinds.Empty []) }
    ensures first { first_fault three_objections ≡ Some (refused_at kinds.Limit (codes "/b")) }
    ensures before { patterns_before three_objections ≡ codes "/a" ∷ [] }
    ensures only { only_fields (codes "b" ∷ codes "c" ∷ []) three_fields
        ≡ object_of ((codes "b", boolean true) ∷ []) }
    ensures whole { only_fields [] (array_of three_items) ≡ array_of three_items }
{}
