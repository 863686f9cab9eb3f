//! Facts about the definitions alone: each is the contract of a function with an empty body.
ghost use Rattle.std.specs.Prelude.{◌≡◌, ◌≢◌, ◌↔◌, ℕ, List, [], ◌++◌, Some, None, Contains};
ghost use Rattle.std.specs.Prelude.{codes, slice_get, map, IsTrue};
ghost use Rattle.std.specs.Ordering.{nat_cmp};
ghost use Rattle.std.specs.Cmp.Lexicographic.{slice_cmp};
ghost use Rattle.std.specs.List.{filter};
ghost use Rattle.std.specs.List.Sorted.{IsStrictlySortedBy};
ghost use Rattle.am_labels.specs.Space.{Space};
ghost use Rattle.am_universe.specs.Text.{quoted_text};
ghost use Rattle.am_config.specs.ConfigFile.{Configuration, RouteTree, receiver_of};
ghost use Rattle.am_config.specs.Path.{route_at, path_text, leads_through};
ghost use Rattle.am_config.specs.RoutePaths.{paths_of};
ghost use Rattle.am_eval.specs.Conditions.{paths_to};
ghost use Rattle.am_eval.specs.Tree.{Part};
ghost use Rattle.am_eval.specs.declared.reach.Reach.TheVariants as reach_is;
ghost use Rattle.am_eval.specs.Question.{Receiver, Route, answers};
ghost use Rattle.am_eval.specs.Reaching.{EndsAt, Enters, GoesTo, SomeIs, IsSetOf, IsDead};
ghost use Rattle.am_eval.specs.Reaching.{IsNeverEntered, IsUnmatched};
ghost use Rattle.am_eval.specs.World.{World};
ghost use Rattle.am_coverage.specs.declared.coverage.RouteCoverage.TheVariants as route_is;
ghost use Rattle.am_coverage.specs.Coverage.{first_end, first_entry, first_receipt};
ghost use Rattle.am_coverage.specs.Coverage.{route_coverage};
ghost use Rattle.am_coverage.specs.FirstEnds.{earliest};
ghost use Rattle.am_coverage.specs.Report.{IsFirstChoice, IsRouteLine, IsReceiverLine};
ghost use Rattle.am_coverage.specs.Report.{IsRoutesReport, IsReceiversReport};

/// A route is reported as live exactly if some label set of the universe ends there. The choice
/// that is shown is the first whose label set does.
pub fn a_live_route_has_a_label_set()
    ensures told { (s : Space) (c : Configuration) (path : List ℕ)
        → SomeIs (IsSetOf s) (EndsAt c path)
        → (first : List ℕ) × (route_coverage s c path ≡ route_is.Live first) }
    ensures first { (s : Space) (c : Configuration) (path choice : List ℕ)
        → IsFirstChoice s (EndsAt c path) choice
        ↔ (route_coverage s c path ≡ route_is.Live choice) }
{}

/// A route is reported as dead exactly if no label set of the universe ends there. It is reported
/// as never entered exactly if none ends there or below it, and so as entered exactly if one ends
/// below it and none there.
pub fn a_dead_route_has_no_label_set()
    ensures dead { (s : Space) (c : Configuration) (path : List ℕ) → IsDead (IsSetOf s) c path
        ↔ ((choice : List ℕ) → route_coverage s c path ≢ route_is.Live choice) }
    ensures never_entered { (s : Space) (c : Configuration) (path : List ℕ)
        → IsNeverEntered (IsSetOf s) c path ↔ (route_coverage s c path ≡ route_is.NeverEntered) }
    ensures entered { (s : Space) (c : Configuration) (path : List ℕ)
        → (IsDead (IsSetOf s) c path × SomeIs (IsSetOf s) (Enters c path))
        ↔ (route_coverage s c path ≡ route_is.Entered) }
{}

/// A receiver is reported as live exactly if some label set of the universe goes to it. The choice
/// that is shown is the first whose label set does.
pub fn a_live_receiver_has_a_label_set()
    ensures told { (s : Space) (c : Configuration) (receiver : ℕ)
        → SomeIs (IsSetOf s) (GoesTo c receiver)
        → (first : List ℕ) × (first_receipt s c receiver ≡ Some first) }
    ensures first { (s : Space) (c : Configuration) (receiver : ℕ) (choice : List ℕ)
        → IsFirstChoice s (GoesTo c receiver) choice
        ↔ (first_receipt s c receiver ≡ Some choice) }
{}

/// A receiver is reported as unmatched exactly if no label set of the universe goes to it, which is
/// so exactly if each route that has it is dead.
pub fn an_unmatched_receiver_has_dead_routes_alone()
    ensures unmatched { (s : Space) (c : Configuration) (receiver : ℕ)
        → IsUnmatched (IsSetOf s) c receiver ↔ (first_receipt s c receiver ≡ None) }
    ensures dead_routes { (s : Space) (c : Configuration) (receiver : ℕ)
        → IsUnmatched (IsSetOf s) c receiver
        ↔ ((path : List ℕ) (t : RouteTree) → route_at c.root path ≡ Some t
        → receiver_of t ≡ receiver → IsDead (IsSetOf s) c path) }
{}

/// A route is dead exactly if the question whether an alert ends there has no answer, and never
/// entered exactly if the question whether an alert enters it has none. A receiver is unmatched
/// exactly if the question whether an alert goes to it has none.
pub fn a_dead_routes_question_has_no_answer()
    ensures dead { (s : Space) (w : World) (path : List ℕ)
        → IsDead (IsSetOf s) w.config path ↔ (answers s w (Part (Route reach_is.Ends path)) ≡ []) }
    ensures never_entered { (s : Space) (w : World) (path : List ℕ)
        → IsNeverEntered (IsSetOf s) w.config path
        ↔ (answers s w (Part (Route reach_is.Enters path)) ≡ []) }
    ensures unmatched { (s : Space) (w : World) (receiver : ℕ)
        → IsUnmatched (IsSetOf s) w.config receiver
        ↔ (answers s w (Part (Receiver receiver)) ≡ []) }
{}

/// The first label set that enters a route is the earliest of those that end first at the route and
/// at each route below it. So a dead route is reported as entered exactly if a route below it is
/// live.
#[tactic(auto, using(crate::proofs::FirstEndLaws::entry_is_earliest))]
pub fn a_dead_route_is_entered_where_one_below_it_is_live()
    ensures first { (s : Space) (c : Configuration) (path : List ℕ)
        → first_entry s c path
        ≡ earliest (map (first_end s c) (filter (leads_through path) (paths_of c))) }
    ensures entered { (s : Space) (c : Configuration) (path : List ℕ)
        → IsDead (IsSetOf s) c path → (route_coverage s c path ≡ route_is.Entered)
        ↔ ((below choice : List ℕ) × Contains (paths_of c) below
        × IsTrue (leads_through path below)
        × (route_coverage s c below ≡ route_is.Live choice)) }
{}

/// The first label set that goes to a receiver is the earliest of those that end first at each
/// route that has it.
#[tactic(auto, using(crate::proofs::FirstEndLaws::receipt_is_earliest))]
pub fn a_receiver_is_live_from_the_first_end_of_its_routes()
    ensures first { (s : Space) (c : Configuration) (receiver : ℕ)
        → first_receipt s c receiver
        ≡ earliest (map (first_end s c) (paths_to receiver c.root)) }
{}

/// The empty list of matchers matches every label set. If it is impossible, each route is reported
/// as never entered, and each receiver as unmatched.
pub fn an_empty_space_reaches_nothing()
    ensures routes { (s : Space) (c : Configuration) (path : List ℕ) → Contains s.impossible []
        → route_coverage s c path ≡ route_is.NeverEntered }
    ensures receivers { (s : Space) (c : Configuration) (receiver : ℕ) → Contains s.impossible []
        → first_receipt s c receiver ≡ None }
{}

/// The paths that are reported are exactly those of the routes, in the order of a dictionary, each
/// once.
#[tactic(auto, using(am_eval::proofs::RoutePathLaws::paths_exactly, crate::proofs::PathLaws::paths_ascend))]
pub fn each_route_is_reported_once()
    ensures exactly { (c : Configuration) (path : List ℕ)
        → Contains (paths_of c) path ↔ (route_at c.root path ≢ None) }
    ensures ascending { (c : Configuration)
        → IsStrictlySortedBy (slice_cmp nat_cmp) (paths_of c) }
{}

/// The line of a route says `dead` exactly if no label set of the universe ends there, and
/// `dead never-entered` exactly if none ends there or below it.
pub fn a_line_says_dead_exactly_where_the_route_is()
    ensures dead { (s : Space) (c : Configuration) (path line : List ℕ)
        → IsRouteLine s c path line → IsDead (IsSetOf s) c path
        ↔ ((rest : List ℕ) × (line ≡ path_text path ++ (codes " dead " ++ rest))) }
    ensures never_entered { (s : Space) (c : Configuration) (path line : List ℕ)
        → IsRouteLine s c path line → IsNeverEntered (IsSetOf s) c path
        ↔ (line ≡ path_text path ++ codes " dead never-entered\n") }
{}

/// The line of a receiver says `unmatched`, after its name, exactly if no label set of the universe
/// goes to it.
pub fn a_line_says_unmatched_exactly_where_the_receiver_is()
    ensures unmatched { (s : Space) (c : Configuration) (receiver : ℕ) (name line : List ℕ)
        → slice_get c.receivers receiver ≡ Some name → IsReceiverLine s c receiver line
        → IsUnmatched (IsSetOf s) c receiver ↔ (line ≡ quoted_text name ++ codes " unmatched\n") }
{}

/// The same configuration and universe fix the report of the routes, and that of the receivers.
pub fn a_report_is_one_text()
    ensures routes { (s : Space) (c : Configuration) (report other : List ℕ)
        → IsRoutesReport s c report → IsRoutesReport s c other → report ≡ other }
    ensures receivers { (s : Space) (c : Configuration) (report other : List ℕ)
        → IsReceiversReport s c report → IsReceiversReport s c other → report ≡ other }
{}
