//! Facts about the definitions alone: each is the contract of a function with an empty body.
ghost use Rattle.std.specs.Prelude.{◌↔◌, ℕ, List, IsTrue, IsFalse};
ghost use Rattle.am_universe.specs.LabelSet.{LabelMap};
ghost use Rattle.am_config.specs.ConfigFile.{Configuration};
ghost use Rattle.am_config.specs.Path.{leads_through};
ghost use Rattle.am_eval.specs.Reaching.{Enters, GoesTo};
ghost use Rattle.am_eval.specs.World.{World};
ghost use Rattle.am_firing.specs.Unreached.{enters, goes_to, is_entered};

/// An alert enters a route, by the test of this crate, exactly if it ends there or below it. And it
/// goes to a receiver exactly if it is one of its receivers.
#[tactic(auto, using(crate::proofs::ReachLaws::enters_exactly, crate::proofs::ReachLaws::goes_exactly))]
pub fn alerts_reach_routes_and_receivers_as_defined()
    ensures enters { (c : Configuration) (path : List ℕ) (alert : LabelMap)
        → (IsTrue (enters c path alert) ↔ Enters c path alert) }
    ensures goes_to { (c : Configuration) (receiver : ℕ) (alert : LabelMap)
        → (IsTrue (goes_to c receiver alert) ↔ GoesTo c receiver alert) }
{}

/// If no firing alert enters a route, none enters a route below it. So the line of an unreached
/// route is true of the routes below it too.
#[tactic(auto, using(crate::proofs::ReachLaws::none_below))]
pub fn below_an_unreached_route_all_are_unreached()
    ensures below { (w : World) (path below : List ℕ) → IsTrue (leads_through path below)
        → IsFalse (is_entered w path) → IsFalse (is_entered w below) }
{}
