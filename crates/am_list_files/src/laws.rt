//! Facts about the forms of files, for every JSON value and all bytes.

ghost use Rattle.std.specs.Prelude.{◌≡◌, ◌↔◌, ℕ, List, Bool, not, IsTrue, None, map};
ghost use Rattle.serde_json.specs.Data.{Data};
ghost use Rattle.am_universe.specs.LabelSet.{LabelMap};
ghost use Rattle.am_labels.specs.Space.{Space};
ghost use Rattle.am_json.specs.Objections.{first_fault, IsRefusedFor};
ghost use Rattle.am_json.specs.Pointer.{Refusal};
ghost use Rattle.am_json.specs.Reading.{MayRefuse};
ghost use Rattle.am_json.specs.ReadingLaw.{IsReadExactly};
ghost use Rattle.am_labels.specs.Matcher.{takes_pattern, negates};
ghost use Rattle.am_labels.specs.MatcherRefusals.{has_valid_pattern};
ghost use Rattle.am_list_files.specs.declared.limits.TheConstants.{MAX_SILENCES, MAX_ALERTS};
ghost use Rattle.am_list_files.specs.declared.limits.TheConstants.{MAX_ALERT_LABELS};
ghost use Rattle.am_list_files.specs.UniverseFile.{SaysUniverse, FileSaysUniverse};
ghost use Rattle.am_list_files.specs.UniverseForm.{universe_form, universe_file_form};
ghost use Rattle.am_list_files.specs.UniverseForm.{IsFirstFaultOfUniverse};
ghost use Rattle.am_list_files.specs.UniverseForm.{IsFirstFaultOfUniverseFile};
ghost use Rattle.am_list_files.specs.UniverseForm.{UniverseFileRefusedFor};
ghost use Rattle.am_list_files.specs.SilencesFile.{Silence, flagged_op, SaysSilences};
ghost use Rattle.am_list_files.specs.SilencesFile.{FileSaysSilences};
ghost use Rattle.am_list_files.specs.SilencesExample.{silences_example, example_silences};
ghost use Rattle.am_list_files.specs.SilencesExample.{severity_matcher};
ghost use Rattle.am_list_files.specs.SilencesForm.{silences_form, silences_file_form};
ghost use Rattle.am_list_files.specs.SilencesForm.{IsFirstFaultOfSilences};
ghost use Rattle.am_list_files.specs.SilencesForm.{IsFirstFaultOfSilencesFile};
ghost use Rattle.am_list_files.specs.SilencesForm.{SilencesFileRefusedFor};
ghost use Rattle.am_list_files.specs.AlertsFile.{SaysAlerts, FileSaysAlerts};
ghost use Rattle.am_list_files.specs.AlertsForm.{alerts_form, alerts_file_form};
ghost use Rattle.am_list_files.specs.AlertsForm.{IsFirstFaultOfAlerts, IsFirstFaultOfAlertsFile};
ghost use Rattle.am_list_files.specs.FaultExamples.{universe_faults, silence_faults, alert_faults};
ghost use Rattle.am_list_files.specs.AlertsExample.{alerts_example, example_alerts};

/// A JSON value says a space exactly if reading it gives that space, when the engine builds each
/// pattern that its grammar reads.
///
/// So it says at most one. If reading refuses the value, it does so for the first fault of all that
/// there is to object to. The value says a space exactly if none of that is a fault. Beside the
/// first fault, the engine may only refuse patterns before it.
pub fn universes_are_read()
    ensures read { IsReadExactly SaysUniverse universe_form IsFirstFaultOfUniverse }
    ensures sound { (d : Data) → ((s : Space) × SaysUniverse d s)
        ↔ (first_fault (universe_form d).objections ≡ None) }
    ensures refused { (d : Data) (r : Refusal) → MayRefuse (universe_form d) r
        → IsRefusedFor (universe_form d).objections r }
{}

/// The bytes of a universe file say a space exactly if reading them gives that space.
///
/// This is so when the engine builds each pattern that its grammar reads. The refusals are as in
/// [`universes_are_read`].
pub fn universe_files_are_read()
    ensures read { IsReadExactly FileSaysUniverse universe_file_form IsFirstFaultOfUniverseFile }
    ensures refused { (bytes : List ℕ) (r : Refusal) → MayRefuse (universe_file_form bytes) r
        → UniverseFileRefusedFor bytes r }
{}

/// A JSON value says silences exactly if reading it gives them, when the engine builds each pattern
/// that its grammar reads.
///
/// So it says at most one list of silences, which may be empty. If reading refuses the value, it
/// does so for the first fault of all that there is to object to. The value says silences exactly
/// if none of that is a fault. Beside the first fault, the engine may only refuse patterns before
/// it.
pub fn silences_are_read()
    ensures read { IsReadExactly SaysSilences silences_form IsFirstFaultOfSilences }
    ensures sound { (d : Data) → ((silences : List Silence) × SaysSilences d silences)
        ↔ (first_fault (silences_form d).objections ≡ None) }
    ensures refused { (d : Data) (r : Refusal) → MayRefuse (silences_form d) r
        → IsRefusedFor (silences_form d).objections r }
{}

/// The bytes of an export of silences say silences exactly if reading them gives them.
///
/// This is so when the engine builds each pattern that its grammar reads. The refusals are as in
/// [`silences_are_read`].
pub fn silence_files_are_read()
    ensures read { IsReadExactly FileSaysSilences silences_file_form IsFirstFaultOfSilencesFile }
    ensures refused { (bytes : List ℕ) (r : Refusal) → MayRefuse (silences_file_form bytes) r
        → SilencesFileRefusedFor bytes r }
{}

/// The operator of a silence's matcher says what both flags are: `isRegex`, whether its value is a
/// pattern, and `isEqual`, whether the label must match it.
pub fn flags_are_told_by_the_operator()
    ensures pattern { (is_regex is_equal : Bool)
        → takes_pattern (flagged_op is_regex is_equal) ≡ is_regex }
    ensures contrary { (is_regex is_equal : Bool)
        → negates (flagged_op is_regex is_equal) ≡ not is_equal }
{}

/// An example: a silence with two matchers, and with an end that is written with an offset.
///
/// The first matcher has no `isEqual`. The second has `isRegex` true, `isEqual` false, and any
/// valid pattern.
pub fn an_example_of_silences()
    ensures says { (pattern : List ℕ) → IsTrue (has_valid_pattern (severity_matcher pattern))
        → SaysSilences (silences_example pattern) (example_silences pattern) }
{}

/// A JSON value says alerts exactly if reading it gives them.
///
/// So it says at most one list of alerts, which may be empty. If reading refuses the value, it does
/// so for the first fault of all that there is to object to. The value says alerts exactly if none
/// of that is a fault.
pub fn alerts_are_read()
    ensures read { IsReadExactly SaysAlerts alerts_form IsFirstFaultOfAlerts }
    ensures sound { (d : Data) → ((alerts : List LabelMap) × SaysAlerts d alerts)
        ↔ (first_fault (alerts_form d).objections ≡ None) }
{}

/// The bytes of an export of alerts say alerts exactly if reading them gives them.
///
/// A refusal is that of the first fault.
pub fn alert_files_are_read()
    ensures read { IsReadExactly FileSaysAlerts alerts_file_form IsFirstFaultOfAlertsFile }
{}

/// An example: an alert with two labels, one of which has the empty value and so is missing.
pub fn an_example_of_alerts()
    ensures says { SaysAlerts alerts_example example_alerts }
{}

/// Examples of first faults: the forms give exactly those of the tables.
pub fn faults_of_lists_by_example()
    ensures universes { map (λ example. first_fault (universe_form example.0).objections)
        universe_faults ≡ map (λ example. example.1) universe_faults }
    ensures silences { map (λ example. first_fault (silences_form example.0).objections)
        silence_faults ≡ map (λ example. example.1) silence_faults }
    ensures alerts { map (λ example. first_fault (alerts_form example.0).objections) alert_faults
        ≡ map (λ example. example.1) alert_faults }
{}

/// The limits of silences, of alerts, and of the labels of an alert.
pub fn records_have_limits()
    ensures silences { MAX_SILENCES ≡ 4096 }
    ensures alerts { MAX_ALERTS ≡ 4096 }
    ensures labels { MAX_ALERT_LABELS ≡ 256 }
{}
