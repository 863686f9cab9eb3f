//! The reader of configuration files, and what they consist of: receivers, routes, paths and rules.
//!
//! [`read_config`] reads an Alertmanager configuration as JSON. It returns what the file says, or
//! fails with its first fault: why the file is refused and, by a JSON Pointer (RFC 6901), at which
//! part. docs/REFERENCE.md has the form of the file, and the order of its faults.
#![tactic(auto)]

// The limits of configuration files.
pub mod limits;

// A configuration: its routes, the paths that lead to them, and its inhibition rules.
mod config;
mod path;
mod route;
mod route_options;
mod routes;
mod rule;
mod whole_config;

pub use config::Config;
pub use path::Path;
pub use route::Route;
pub use route_options::RouteOptions;
pub use routes::RouteList;
pub use rule::Rule;
pub use whole_config::WholeConfig;

// The configuration file.
mod config_file;
mod route_matchers;

pub use config_file::{read_config, read_whole_config};

// Facts about the definitions alone.
pub mod laws;
