//! Facts about the form of the configuration file, for every JSON value and all bytes, and about
//! paths.

ghost use Rattle.std.specs.Prelude.{◌≡◌, ◌≢◌, ◌↔◌, ◌+◌, ◌<◌, ◌≤◌, ℕ, List, [], ◌∷◌, ◌++◌};
ghost use Rattle.std.specs.Prelude.{length, map, Some, None, option_and_then, slice_get};
ghost use Rattle.serde_json.specs.Data.{Data};
ghost use Rattle.am_json.specs.Objections.{first_fault, IsRefusedFor};
ghost use Rattle.am_json.specs.Pointer.{Refusal};
ghost use Rattle.am_json.specs.Reading.{MayRefuse};
ghost use Rattle.am_json.specs.ReadingLaw.{IsReadExactly};
ghost use Rattle.am_config.specs.declared.limits.TheConstants.{MAX_LEVELS, MAX_RECEIVERS};
ghost use Rattle.am_config.specs.declared.limits.TheConstants.{MAX_ROUTES, MAX_PATH_STEPS};
ghost use Rattle.am_config.specs.declared.limits.TheConstants.{MAX_CHILD_POSITION, MAX_RULES};
ghost use Rattle.am_config.specs.declared.limits.TheConstants.{MAX_EQUAL_NAMES};
ghost use Rattle.am_config.specs.ConfigFile.{Configuration, SaysConfig, FileSaysConfig, SaysRule};
ghost use Rattle.am_config.specs.ConfigFile.{RouteTree, IsConfig, children_of, no_routes};
ghost use Rattle.am_config.specs.ConfigFile.{route_levels};
ghost use Rattle.am_config.specs.ConfigForm.{config_form, config_file_form};
ghost use Rattle.am_config.specs.ConfigForm.{IsFirstFaultOfConfig, IsFirstFaultOfConfigFile};
ghost use Rattle.am_config.specs.ConfigForm.{ConfigFileRefusedFor};
ghost use Rattle.am_config.specs.FaultExamples.{fault_examples};
ghost use Rattle.am_config.specs.SmallestConfig.{smallest_config_file, smallest_config};
ghost use Rattle.am_config.specs.RuleExample.{rule_example, example_rule};
ghost use Rattle.am_config.specs.Path.{path_text, list_of, route_at, IsPath};

/// A JSON value says a configuration exactly if reading it gives that configuration, when the
/// engine builds each pattern that its grammar reads.
///
/// So it says at most one. If reading refuses the value, it does so for the first fault of all that
/// there is to object to. The value says a configuration exactly if none of that is a fault. Beside
/// the first fault, the engine may only refuse patterns before it.
pub fn configurations_are_read()
    ensures read { IsReadExactly SaysConfig config_form IsFirstFaultOfConfig }
    ensures sound { (d : Data) → ((c : Configuration) × SaysConfig d c)
        ↔ (first_fault (config_form d).objections ≡ None) }
    ensures refused { (d : Data) (r : Refusal) → MayRefuse (config_form d) r
        → IsRefusedFor (config_form d).objections r }
{}

/// The bytes of a configuration file say a configuration exactly if reading them gives that
/// configuration.
///
/// This is so when the engine builds each pattern that its grammar reads. The refusals are as in
/// [`configurations_are_read`].
pub fn configuration_files_are_read()
    ensures read { IsReadExactly FileSaysConfig config_file_form IsFirstFaultOfConfigFile }
    ensures refused { (bytes : List ℕ) (r : Refusal) → MayRefuse (config_file_form bytes) r
        → ConfigFileRefusedFor bytes r }
{}

/// Examples of first faults: the form gives exactly those of the table.
pub fn faults_of_configurations_by_example()
    ensures faults { map (λ example. first_fault (config_form example.0).objections) fault_examples
        ≡ map (λ example. example.1) fault_examples }
{}

/// The smallest configuration file says one receiver, and one route that has it.
pub fn the_smallest_configuration()
    ensures says { FileSaysConfig smallest_config_file smallest_config }
{}

/// An example: an inhibition rule with a matcher on each side, and with a name that occurs twice in
/// `equal`.
pub fn an_example_of_a_rule()
    ensures says { SaysRule rule_example example_rule }
{}

/// The limits of a configuration, and of its paths.
pub fn files_have_limits()
    ensures receivers { MAX_RECEIVERS ≡ 1024 }
    ensures routes { MAX_ROUTES ≡ 1024 }
    ensures levels { MAX_LEVELS ≡ 32 }
    ensures steps { MAX_PATH_STEPS ≡ 31 }
    ensures positions { MAX_CHILD_POSITION ≡ 1022 }
    ensures rules { MAX_RULES ≡ 1024 }
    ensures names { MAX_EQUAL_NAMES ≡ 64 }
{}

/// Two different paths have different texts.
pub fn one_path_a_text()
    ensures one { (p q : List ℕ) → path_text p ≡ path_text q → p ≡ q }
{}

/// Each route of a configuration is at a path that a `Path` can hold.
///
/// That path is no longer than the way to the last level, and no position in it is beyond that of
/// the last child. So what `Path::parse` refuses with `UnknownRoute` leads to no route of any
/// configuration. The path of a route with a child has room for one more step, and that step leads
/// to the child.
pub fn routes_have_paths()
    ensures paths { (c : Configuration) (path : List ℕ) (t : RouteTree) → IsConfig c
        → route_at c.root path ≡ Some t → IsPath path }
    ensures levels { (t below : RouteTree) (path : List ℕ) → route_at t path ≡ Some below
        → length path + route_levels below ≤ route_levels t }
    ensures room { (c : Configuration) (path : List ℕ) (t : RouteTree) → IsConfig c
        → route_at c.root path ≡ Some t → children_of t ≢ no_routes
        → length path < MAX_PATH_STEPS }
    ensures child { (t : RouteTree) (path : List ℕ) (p : ℕ) → route_at t (path ++ p ∷ [])
        ≡ option_and_then (λ parent. slice_get (list_of (children_of parent)) p)
        (route_at t path) }
{}
