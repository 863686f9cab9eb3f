//! Facts about the definitions alone: each is the contract of a function with an empty body.
ghost use Rattle.std.specs.Prelude.{◌≡◌, ◌↔◌, ℕ, List, Option, None, IsTrue, Contains};
ghost use Rattle.am_labels.specs.Space.{Space};
ghost use Rattle.am_universe.specs.LabelSet.{LabelMap};
ghost use Rattle.am_config.specs.ConfigFile.{Configuration};
ghost use Rattle.am_classes.specs.declared.alphabet.Alphabet.{Alphabet};
ghost use Rattle.am_asked.specs.Asked.{route_matchers};
ghost use Rattle.am_eval.specs.Reaching.{IsSetOf, GoesTo};
ghost use Rattle.am_every_alert.specs.EveryAlert.{IsAlertOf};
ghost use Rattle.am_every_alert.specs.Deciding.{StandsFor};
ghost use Rattle.am_route_alerts.specs.RouteAlerts.{RouteAlerts, AreRouteAlerts, MeetsOneOf};
ghost use Rattle.am_route_alerts.specs.RouteAlerts.{is_asked};

/// What is found over a space that stands for all alerts is so for all alerts. The space is
/// complete, over an alphabet, for the matchers of the routes and the impossible lists, and has
/// only texts over this alphabet. The alerts are those of the space over this alphabet.
pub fn all_alerts_end_as_those_of_a_complete_space()
    ensures alerts { (a : Alphabet) (s : Space) (c : Configuration) (receivers : Option (List ℕ))
        (found : List RouteAlerts) → StandsFor a s (route_matchers c.root)
        → AreRouteAlerts (IsSetOf s) c receivers found
        → AreRouteAlerts (IsAlertOf a s) c receivers found }
{}

/// An alert goes to a receiver exactly if it meets one of the lines of this receiver. The lines are
/// those of all routes, or of those that have some receivers, this one among them.
pub fn an_alert_goes_to_a_receiver_where_it_meets_one_of_its_lines()
    ensures goes { (a : Alphabet) (s : Space) (c : Configuration) (receivers : Option (List ℕ))
        (found : List RouteAlerts) (receiver : ℕ) (alert : LabelMap)
        → AreRouteAlerts (IsAlertOf a s) c receivers found → IsTrue (is_asked receivers receiver)
        → IsAlertOf a s alert → GoesTo c receiver alert ↔ MeetsOneOf receiver found alert }
{}
