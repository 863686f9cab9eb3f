ghost use Rattle.std.specs.Prelude.{[], ◌∷◌, map};
ghost use Rattle.am_files.specs.Promise.{IsKept};
ghost use Rattle.am_commands.specs.Explanation.{explain_promise};

use crate::explanation::{explanation_of, write_explanation};
use am_files::{Files, read_set, read_world};
use am_universe::{Fault, Sink, answer_of_write};
use std::alloc::Global;

/// Writes why a label set goes where it goes: the set, the routes that handle it with their
/// receivers, the silences that hide it, and the inhibition rules and firing alerts that inhibit
/// it.
///
/// `files` has the configuration, the silences, the firing alerts and the instant, each of which is
/// optional. `set` is a list of matchers in the classic syntax, each with `=`. Routing and
/// inhibition are as in the Alertmanager configuration reference 0.25, "<route>" and
/// "<inhibit_rule>", and silencing as in its documentation, "Silences". All input is read and all
/// results are found before the first byte is written.
///
/// Fails with the first of these faults:
///
/// - at `Config`, those of `read_config`;
/// - at `Silences`, those of `read_silences`;
/// - at `Alerts`, those of `read_alerts`;
/// - at `Instant`, with no pointer: `BadTime` for a text that is no instant, and `NeedAt` for a
///   file of silences without an instant;
/// - at `Alerts`, with no pointer: `Limit`, as `World::new` counts pairs of rules and alerts;
/// - at `Set`, with no pointer, those of `parse_set`;
/// - `Write`.
///
/// `Memory` may come at any point. After any fault but `Write` the sink is unchanged; after `Write`
/// it has taken a prefix of the text.
pub fn explain<W: Sink>(
    alloc: Global,
    files: &Files<'_>,
    set: &str,
    out: &mut W,
) -> Result<(), Fault>
    // The ends, the silences, and the rules and alerts of the set are written.
    ensures kept { IsKept (explain_promise files.now (set.now ∷ []))
        W.taken W.failures out.old out.new result }
{
    explain_words(alloc, files, &[set], out)
}

/// Writes why a label set goes where it goes, as [`explain`] does, for a set that is given in
/// words.
///
/// One word is read as the text of [`explain`]. Each of several words is one matcher with `=`,
/// whose value may have commas. The faults are those of [`explain`], with those of
/// `parse_set_words` at `Set`.
pub fn explain_words<W: Sink>(
    alloc: Global,
    files: &Files<'_>,
    words: &[&str],
    out: &mut W,
) -> Result<(), Fault>
    ensures kept { IsKept (explain_promise files.now (map (λ word. word.now) words.now))
        W.taken W.failures out.old out.new result }
{
    let world = read_world(alloc, files)?;
    let set = read_set(alloc, words)?;
    let Ok(explanation) = explanation_of(alloc, &world, &set) else {
        return Err(Fault::memory(alloc));
    };
    let written = write_explanation(world.config(), &set, &explanation, out);
    answer_of_write(alloc, written)
}
