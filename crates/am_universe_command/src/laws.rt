//! Facts about the definitions alone: each is the contract of a function with an empty body.
ghost use Rattle.std.specs.Prelude.{◌≤◌, ℕ, List, length};
ghost use Rattle.std.specs.Str.{IsUtf8};
ghost use Rattle.am_universe.specs.Universe.{Label, IsUniverse, HaveLabelNames};
ghost use Rattle.am_labels.specs.Matcher.{Matcher};
ghost use Rattle.am_json.specs.declared.limits.TheConstants.{MAX_FILE_BYTES};
ghost use Rattle.am_list_files.specs.UniverseFile.{FileSaysUniverse, FileHasImpossibleTexts};
ghost use Rattle.am_list_files.specs.UniverseFile.{AreTextsOfLists};
ghost use Rattle.am_universe_command.specs.UniverseText.{universe_text};

/// The text of a universe and of impossible lists is that of a universe file that says them, if
/// each label has a label name, and the text is UTF-8 and not longer than a file may be. The texts
/// of the lists are in it word for word.
pub fn the_text_of_a_universe_says_it()
    ensures says { (u : List Label) (texts : List (List ℕ)) (lists : List (List Matcher))
        → IsUniverse u → HaveLabelNames u → AreTextsOfLists texts lists
        → IsUtf8 (universe_text u texts) → length (universe_text u texts) ≤ MAX_FILE_BYTES
        → FileSaysUniverse (universe_text u texts) (record { labels = u; impossible = lists }) }
    ensures word_for_word { (u : List Label) (texts : List (List ℕ))
        → IsUtf8 (universe_text u texts) → length (universe_text u texts) ≤ MAX_FILE_BYTES
        → FileHasImpossibleTexts (universe_text u texts) texts }
{}
