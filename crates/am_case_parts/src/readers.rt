//! Configurations, silences and instants, as they are read.

use crate::asked::read_file;
use crate::matchers::write_matchers;
use crate::texts::{Refusal, begun};
use am_config::{Config, Path, Route, Rule, read_config};
use am_list_files::{Silences, Timestamp, parse_instant, read_silences};
use am_universe::{Kind, Out, put_str, write_text};
use std::alloc::Global;
use std::rt::Files;

/// Returns the receivers, the routes in preorder, and the inhibition rules of a configuration.
pub fn of_config<R: Files + AllocGlobal>(files: &R, path: &str) -> Result<Vec<u8>, Refusal> {
    let alloc = files.alloc();
    let config = read_config(alloc, read_file(files, path)?.as_slice())?;
    config_text(alloc, &config)
}

fn config_text(alloc: Global, config: &Config) -> Result<Vec<u8>, Refusal> {
    let mut out = begun(alloc, "ok: receivers")?;
    write_config(alloc, config, &mut out)?;
    Ok(out.into_inner())
}

fn write_config(alloc: Global, config: &Config, out: &mut Out<Vec<u8>>) -> Result<(), Kind> {
    for receiver in 0..config.receivers() {
        write_receiver(config, receiver, out)?;
    }
    let listed = config.routes(alloc)?;
    for (path, route) in listed.paths.iter().zip(&listed.routes) {
        write_route(config, path, route, out)?;
    }
    for rule in config.rules() {
        write_rule(rule, out)?;
    }
    Ok(())
}

/// Writes a blank and the name of a receiver.
fn write_receiver(config: &Config, receiver: usize, out: &mut Out<Vec<u8>>) -> Result<(), Kind> {
    put_str(out, " ")?;
    if receiver < config.receivers() {
        put_str(out, config.receiver_name(receiver))?;
    }
    Ok(())
}

fn write_route(
    config: &Config,
    path: &Path,
    route: &Route,
    out: &mut Out<Vec<u8>>,
) -> Result<(), Kind> {
    put_str(out, "; ")?;
    path.write(out)?;
    write_receiver(config, route.receiver(), out)?;
    put_str(out, if route.continues() { " continue " } else { " " })?;
    write_matchers(route.matchers(), out)
}

/// Writes the two sides of a rule, and the names of the labels that must be equal, in quotes.
fn write_rule(rule: &Rule, out: &mut Out<Vec<u8>>) -> Result<(), Kind> {
    put_str(out, "; rule ")?;
    write_matchers(rule.source(), out)?;
    put_str(out, " ")?;
    write_matchers(rule.target(), out)?;
    for name in rule.equal() {
        put_str(out, " ")?;
        write_text(out, name.as_str())?;
    }
    Ok(())
}

/// Returns the silences of an export.
pub fn of_silences<R: Files + AllocGlobal>(files: &R, path: &str) -> Result<Vec<u8>, Refusal> {
    let alloc = files.alloc();
    let silences = read_silences(alloc, read_file(files, path)?.as_slice())?;
    silences_text(alloc, &silences)
}

fn silences_text(alloc: Global, silences: &Silences) -> Result<Vec<u8>, Refusal> {
    let mut out = begun(alloc, "ok:")?;
    for i in 0..silences.len() {
        put_str(&mut out, if i > 0 { "; " } else { " " })?;
        let silence = silences.get(i);
        let (starts, ends) = (utc(alloc, silence.starts())?, utc(alloc, silence.ends())?);
        let span = format!(in alloc; "{starts} {ends} ")?;
        put_str(&mut out, span.as_str())?;
        write_matchers(silence.matchers(), &mut out)?;
    }
    Ok(out.into_inner())
}

/// Returns an instant in UTC.
pub fn of_instant(alloc: Global, text: &str) -> Result<Vec<u8>, Refusal> {
    let instant = utc(alloc, parse_instant(alloc, text)?)?;
    let text = format!(in alloc; "ok: {instant}")?;
    Ok(text.into_bytes())
}

fn utc(alloc: Global, instant: Timestamp) -> Result<jiff::Timestamp, Refusal> {
    let instant = jiff::Timestamp::from_nanosecond(instant.nanosecond());
    instant.map_err(|_| Refusal::wrong(alloc, "an instant outside the range of `jiff`"))
}
