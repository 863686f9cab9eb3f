//! The commands `lint`, `where`, `routes`, `compare` and `outcomes`, which speak of every alert, as
//! functions over bytes and a [`Sink`](am_universe::Sink).
//!
//! [`lint`] says what is wrong with a configuration, with silences, and with the values that
//! matchers name, and why, and what the alerts of alerting rules do not reach. [`where_alerts_go`]
//! says to which receivers the alerts of alerting rules go, [`routes`] which alerts end at each
//! route, [`outcomes`] lists to which receivers alerts go, and [`compare`] says what changes
//! between two configurations. They need no universe file: each makes the universes that stand for
//! every alert itself.
#![tactic(auto)]

// The inputs.
mod compare_inputs;
mod report_inputs;
mod rules_file;
mod world_inputs;

pub use compare_inputs::CompareInputs;
pub use report_inputs::ReportInputs;
pub use world_inputs::WorldInputs;

// The universes that stand for the alerts, and the outcomes.
mod all_outcomes;
mod configs;
mod cut_off;
mod made;

// The receivers that are asked about, the silences that are active, and the outcomes of rules.
mod active_silences;
mod receivers;
mod rules_outcomes;

// What `lint` finds.
mod listed_findings;
mod route_findings;
mod rules_reach;

// The commands.
mod comparing;
mod linting;
mod outcomes_report;
mod routes_report;
mod where_report;

pub use comparing::compare;
pub use linting::lint;
pub use outcomes_report::outcomes;
pub use routes_report::routes;
pub use where_report::where_alerts_go;
