//! The lines of parts that differ.

ghost use Rattle.std.specs.Prelude.{◌≡◌, ◌++◌, map, option_map, IfOk, OnOk};
ghost use Rattle.serde_json.specs.Find.{as_str};
ghost use Rattle.am_config.specs.ConfigView.{whole_config_view};
ghost use Rattle.am_report_texts.specs.LineView.{line_view, pieces_view};
ghost use Rattle.am_differences.specs.Differences.{differences};
ghost use Rattle.am_differences.specs.RuleParts.{rules_only_in};
ghost use Rattle.am_differences.specs.PartLines.{part_lines, named_line, field_line, rule_line};
ghost use Rattle.am_differences.specs.PartLines.{presence_word, name_pieces, sides_pieces};
ghost use Rattle.am_differences.specs.PartsView.{difference_view, parts_view, rule_view};
ghost use Rattle.am_differences.specs.PartsView.{rules_view, value_or_null};

use crate::differences::{Difference, Presence, differences};
use crate::parts::{Part, field_parts, interval_parts, receiver_parts};
use crate::rules::{NamedRule, named_rules, rules_only_in};
use am_config::{Rule, WholeConfig};
use am_report_texts::{Field, Level, Line, Piece, Shown, all_matchers, texts_of};
use serde_json::Value;
use std::alloc::{AllocError, Global};

/// Returns a line for each part that differs between an old and a new configuration: receivers,
/// then inhibition rules, time intervals, and the other fields but `route`. Fails only if memory
/// runs out.
///
/// Receivers and time intervals are compared by their names, rules by what they say, and any other
/// field as a whole. Neither the order of receivers, rules and time intervals counts, nor in which
/// of its two fields a time interval is declared.
pub fn part_lines<'a>(
    alloc: Global,
    old: &'a WholeConfig,
    new: &'a WholeConfig,
) -> Result<Vec<Line<'a>>, AllocError>
    ensures lines { IfOk result (λ lines. map line_view lines.items
        ≡ part_lines (whole_config_view old.now) (whole_config_view new.now)) }
{
    let mut lines = Vec::new(alloc);
    let (olds, news) = (receiver_parts(alloc, old)?, receiver_parts(alloc, new)?);
    push_named_lines(
        alloc,
        "receiver",
        olds.as_slice(),
        news.as_slice(),
        &mut lines,
    )?;
    let (olds, news) = (named_rules(alloc, old)?, named_rules(alloc, new)?);
    push_rule_lines(
        alloc,
        Presence::OnlyInOld,
        olds.as_slice(),
        news.as_slice(),
        &mut lines,
    )?;
    push_rule_lines(
        alloc,
        Presence::OnlyInNew,
        news.as_slice(),
        olds.as_slice(),
        &mut lines,
    )?;
    let (olds, news) = (interval_parts(alloc, old)?, interval_parts(alloc, new)?);
    push_named_lines(
        alloc,
        "time interval",
        olds.as_slice(),
        news.as_slice(),
        &mut lines,
    )?;
    let (olds, news) = (field_parts(alloc, old)?, field_parts(alloc, new)?);
    push_field_lines(alloc, olds.as_slice(), news.as_slice(), &mut lines)?;
    Ok(lines)
}

/// Adds a line for each name of which the parts differ, after a word for what they are.
fn push_named_lines<'a>(
    alloc: Global,
    word: &'static str,
    old: &[Part<'a>],
    new: &[Part<'a>],
    lines: &mut Vec<Line<'a>>,
) -> Result<(), AllocError>
    ensures { OnOk result (map line_view lines.new.items ≡ map line_view lines.old.items
        ++ map (named_line word.now) (differences (parts_view old.now) (parts_view new.now))) }
{
    let found = differences(alloc, old, new)?;
    for difference in found.as_slice() {
        lines.push(named_line(alloc, word, difference)?)?;
    }
    Ok(())
}

fn named_line<'a>(
    alloc: Global,
    word: &'static str,
    difference: &Difference<'a>,
) -> Result<Line<'a>, AllocError>
    ensures { IfOk result (λ line.
        line_view line ≡ named_line word.now (difference_view difference.now)) }
{
    Ok(Line {
        level: Level::Plain,
        pieces: vec![in alloc;
            Piece::Value(Field::Part, Shown::Word(word)),
            Piece::Words(" "),
            Piece::Value(Field::Name, Shown::Text(difference.name)),
            Piece::Words(" "),
            Piece::Value(Field::Kind, Shown::Word(presence_word(difference.presence))),
        ]?,
    })
}

fn presence_word(presence: Presence) -> &'static str
    ensures { result.now ≡ presence_word presence }
{
    match presence {
        Presence::OnlyInOld => "only in old",
        Presence::OnlyInNew => "only in new",
        Presence::InBoth => "differs",
    }
}

/// Adds a line for each field that differs.
fn push_field_lines<'a>(
    alloc: Global,
    old: &[Part<'a>],
    new: &[Part<'a>],
    lines: &mut Vec<Line<'a>>,
) -> Result<(), AllocError>
    ensures { OnOk result (map line_view lines.new.items ≡ map line_view lines.old.items
        ++ map field_line (differences (parts_view old.now) (parts_view new.now))) }
{
    let found = differences(alloc, old, new)?;
    for difference in found.as_slice() {
        lines.push(field_line(alloc, difference)?)?;
    }
    Ok(())
}

fn field_line<'a>(alloc: Global, difference: &Difference<'a>) -> Result<Line<'a>, AllocError>
    ensures { IfOk result (λ line.
        line_view line ≡ field_line (difference_view difference.now)) }
{
    Ok(Line {
        level: Level::Plain,
        pieces: vec![in alloc;
            Piece::Value(Field::Kind, Shown::Word("differs")),
            Piece::Words(": "),
            Piece::Value(Field::Name, Shown::Name(difference.name)),
        ]?,
    })
}

/// Adds a line for each inhibition rule that is not among others.
fn push_rule_lines<'a>(
    alloc: Global,
    presence: Presence,
    rules: &[NamedRule<'a>],
    others: &[NamedRule<'a>],
    lines: &mut Vec<Line<'a>>,
) -> Result<(), AllocError>
    ensures { OnOk result (map line_view lines.new.items ≡ map line_view lines.old.items
        ++ map (rule_line presence) (rules_only_in (rules_view rules.now)
        (rules_view others.now))) }
{
    let found = rules_only_in(alloc, rules, others)?;
    for rule in found.as_slice() {
        lines.push(rule_line(alloc, presence, rule)?)?;
    }
    Ok(())
}

fn rule_line<'a>(
    alloc: Global,
    presence: Presence,
    rule: &NamedRule<'a>,
) -> Result<Line<'a>, AllocError>
    ensures { IfOk result (λ line. line_view line ≡ rule_line presence (rule_view rule.now)) }
{
    let mut pieces = vec![in alloc;
        Piece::Value(Field::Part, Shown::Word("rule")),
        Piece::Words(" "),
    ]?;
    push_name(rule.name, &mut pieces)?;
    pieces.append(&mut sides(alloc, presence, rule.rule)?)?;
    Ok(Line {
        level: Level::Plain,
        pieces,
    })
}

/// Adds the name of a rule, if it is a text.
fn push_name<'a>(name: Option<&'a Value>, pieces: &mut Vec<Piece<'a>>) -> Result<(), AllocError>
    ensures { OnOk result (pieces_view pieces.new.items ≡ pieces_view pieces.old.items
        ++ name_pieces (as_str (value_or_null name.entry))) }
{
    if let Some(text) = text_of(name) {
        pieces.push(Piece::Value(Field::Name, Shown::Text(text)))?;
        pieces.push(Piece::Words(" "))?;
    }
    Ok(())
}

fn text_of(name: Option<&Value>) -> Option<&str>
    ensures { option_map (λ text. text.now) result ≡ as_str (value_or_null name.entry) }
{
    name?.as_str()
}

/// Returns what a line says of a rule after its name.
fn sides<'a>(
    alloc: Global,
    presence: Presence,
    rule: &'a Rule,
) -> Result<Vec<Piece<'a>>, AllocError>
    ensures { IfOk result (λ pieces.
        pieces_view pieces.items ≡ sides_pieces presence rule.now) }
{
    let equal = rule.equal();
    Ok(vec![in alloc;
        Piece::Value(Field::Kind, Shown::Word(presence_word(presence))),
        Piece::Words(": source "),
        Piece::Value(
            Field::Source,
            Shown::Matchers(all_matchers(alloc, rule.source())?)
        ),
        Piece::Words(" target "),
        Piece::Value(
            Field::Target,
            Shown::Matchers(all_matchers(alloc, rule.target())?)
        ),
        Piece::Words(if equal.is_empty() { "" } else { " equal " }),
        Piece::Value(Field::Equal, Shown::Texts(texts_of(alloc, equal)?)),
    ]?)
}
