#![tactic(auto, using(am_universe::proofs::Writing::steps))]

ghost use Rattle.std.specs.Prelude.{◌≡◌, decimal, IfOk};
ghost use Rattle.std.specs.List.{flat_map};
ghost use Rattle.am_universe.specs.Sink.{Writes};
ghost use Rattle.am_config.specs.ConfigView.{config_view};
ghost use Rattle.am_eval.specs.Routing.{ends};
ghost use Rattle.am_eval.specs.Silencing.{silencers};
ghost use Rattle.am_eval.specs.Inhibition.{inhibitors};
ghost use Rattle.am_commands.specs.Explanation.{receiver_name_at, end_line, silenced_line};
ghost use Rattle.am_commands.specs.Explanation.{inhibited_line, explanation_text};

use am_config::{Config, Path};
use am_eval::{World, ends, inhibited_by, silenced_by};
use am_universe::{Kind, LabelSet, Sink, put_all, put_str, write_map, write_text};
use std::alloc::{AllocError, Global};

/// Where an alert with some label set goes, and why.
#[derive(Drop)]
pub struct Explanation {
    /// The routes that handle it.
    pub ends: Vec<Path>,
    /// The silences that hide it, by their positions.
    pub silencers: Vec<usize>,
    /// The rules and firing alerts that inhibit it, by their positions.
    pub inhibitors: Vec<(usize, usize)>,
}

/// Finds which routes handle a label set, which silences hide it, and what inhibits it.
///
/// Fails only if memory runs out.
pub fn explanation_of(
    alloc: Global,
    world: &World,
    set: &LabelSet,
) -> Result<Explanation, AllocError>
    ensures ends { IfOk result (λ found. found.ends.items ≡ ends set.now world.now.config) }
    ensures silencers { IfOk result (λ found. found.silencers.items ≡ silencers world.now set.now) }
    ensures inhibitors { IfOk result (λ found.
        found.inhibitors.items ≡ inhibitors world.now set.now) }
{
    Ok(Explanation {
        ends: ends(alloc, world.config(), set)?,
        silencers: silenced_by(alloc, world, set)?,
        inhibitors: inhibited_by(alloc, world, set)?,
    })
}

/// Writes the label set, and a line for each end, each silence, and each rule with its alert.
///
/// Fails only with `Kind::Write`; then the sink has taken a proper prefix of that text. Takes no
/// memory.
pub fn write_explanation<W: Sink>(
    config: &Config,
    set: &LabelSet,
    explanation: &Explanation,
    out: &mut W,
) -> Result<(), Kind>
    ensures written { Writes W.taken W.failures out.old out.new
        (explanation_text (config_view config.now) set.now explanation.now.ends.items
        explanation.now.silencers.items explanation.now.inhibitors.items) result }
{
    write_map(set, out)?;
    put_all(out, b"\n")?;
    write_ends(config, explanation.ends.as_slice(), out)?;
    write_silencers(explanation.silencers.as_slice(), out)?;
    write_inhibitors(explanation.inhibitors.as_slice(), out)
}

fn write_ends<W: Sink>(config: &Config, ends: &[Path], out: &mut W) -> Result<(), Kind>
    ensures { Writes W.taken W.failures out.old out.new
        (flat_map (end_line (config_view config.now)) ends.now) result }
{
    for end in ends {
        write_route_end(config, end, out)?;
    }
    Ok(())
}

fn write_route_end<W: Sink>(config: &Config, end: &Path, out: &mut W) -> Result<(), Kind>
    ensures { Writes W.taken W.failures out.old out.new
        (end_line (config_view config.now) end.now) result }
{
    put_all(out, b"end ")?;
    end.write(out)?;
    put_all(out, b" ")?;
    write_text(out, receiver_name_at(config, end))?;
    put_all(out, b"\n")
}

/// The name of the receiver of the route at a path, or the empty text if there is no such route.
fn receiver_name_at<'c>(config: &'c Config, path: &Path) -> &'c str
    ensures { result.now ≡ receiver_name_at (config_view config.now) path.now }
{
    match config.at(path) {
        Some(route) => config.receiver_name(route.receiver()),
        None => "",
    }
}

fn write_silencers<W: Sink>(silencers: &[usize], out: &mut W) -> Result<(), Kind>
    ensures { Writes W.taken W.failures out.old out.new
        (flat_map silenced_line silencers.now) result }
{
    for silence in silencers {
        write_silencer(*silence, out)?;
    }
    Ok(())
}

fn write_silencer<W: Sink>(silence: usize, out: &mut W) -> Result<(), Kind>
    ensures { Writes W.taken W.failures out.old out.new (silenced_line silence) result }
{
    put_all(out, b"silenced ")?;
    write_number(silence, out)?;
    put_all(out, b"\n")
}

fn write_inhibitors<W: Sink>(inhibitors: &[(usize, usize)], out: &mut W) -> Result<(), Kind>
    ensures { Writes W.taken W.failures out.old out.new
        (flat_map inhibited_line inhibitors.now) result }
{
    for (rule, alert) in inhibitors {
        write_inhibitor(*rule, *alert, out)?;
    }
    Ok(())
}

fn write_inhibitor<W: Sink>(rule: usize, alert: usize, out: &mut W) -> Result<(), Kind>
    ensures { Writes W.taken W.failures out.old out.new (inhibited_line (rule, alert)) result }
{
    put_all(out, b"inhibited ")?;
    write_number(rule, out)?;
    put_all(out, b" ")?;
    write_number(alert, out)?;
    put_all(out, b"\n")
}

/// Writes a number in decimal.
fn write_number<W: Sink>(number: usize, out: &mut W) -> Result<(), Kind>
    ensures { Writes W.taken W.failures out.old out.new (decimal number) result }
{
    put_str(out, itoa::Buffer::new().format(number))
}
