//! Configurations with the fields of their files.

use crate::config::Config;
use serde_json::{Map, Value};

/// A configuration, and the fields of its file but `route`, as they were read. Only a comparison of
/// two files needs them.
#[derive(Drop)]
pub struct WholeConfig {
    pub config: Config,
    pub rest: Map<String, Value>,
}
