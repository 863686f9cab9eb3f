//! Texts in quotes.
#![tactic(auto, using(crate::proofs::PieceSteps::text_steps))]

ghost use Rattle.std.specs.Prelude.{◌≡◌, ◌++◌, string_bytes, encode_utf8, OnOk};
ghost use Rattle.std.specs.List.{flat_map};
ghost use Rattle.am_universe.specs.Text.{quoted_text, label_value_escape};

use std::alloc::AllocError;

/// Adds a text in quotes, with `\` as `\\`, `"` as `\"` and a line feed as `\n`. Fails only if
/// memory runs out.
pub fn push_quoted(text: &mut String, quoted: &str) -> Result<(), AllocError>
    ensures { OnOk result (string_bytes text.new
        ≡ string_bytes text.old ++ quoted_text quoted.now) }
{
    text.push_str("\"")?;
    push_escaped(text, quoted)?;
    text.push_str("\"")?;
    Ok(())
}

fn push_escaped(text: &mut String, quoted: &str) -> Result<(), AllocError>
    ensures { OnOk result (string_bytes text.new
        ≡ string_bytes text.old ++ flat_map label_value_escape quoted.now) }
{
    for character in quoted.chars() {
        push_escaped_character(text, character)?;
    }
    Ok(())
}

fn push_escaped_character(text: &mut String, character: char) -> Result<(), AllocError>
    ensures { OnOk result (string_bytes text.new ≡ string_bytes text.old
        ++ flat_map label_value_escape (encode_utf8 character)) }
{
    if character == '\\' {
        text.push_str("\\\\")
    } else if character == '"' {
        text.push_str("\\\"")
    } else if character == '\n' {
        text.push_str("\\n")
    } else {
        text.push(character)
    }
}
