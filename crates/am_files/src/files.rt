ghost use Rattle.std.specs.Prelude.{◌≡◌};
ghost use Rattle.am_files.specs.Files.{config_of};

use std::marker::Model;

/// The input files without the universe, each as its bytes, and the instant. All are optional.
#[derive(Drop)]
pub struct Files<'a> {
    /// The configuration. Without one, a configuration of one receiver and one route is used.
    pub config: Option<&'a [u8]>,
    /// The silences, as `amtool silence query -o json` writes them. Without them there are none.
    pub silences: Option<&'a [u8]>,
    /// The firing alerts, as `amtool alert query -a -s -i -u -o json` writes them. Without these
    /// letters, `amtool` leaves out alerts that are silenced or inhibited. Without the file no
    /// alert fires.
    pub alerts: Option<&'a [u8]>,
    /// The instant that is asked about, as a text. It is required if there is a file of silences.
    pub at: Option<&'a str>,
}

/// The configuration that is used if none is given: one receiver, and the top-level route alone.
const STAND_IN_CONFIG: &[u8] =
    b"{\"receivers\":[{\"name\":\"none\"}],\"route\":{\"receiver\":\"none\"}}";

impl<'a> Model for Files<'a> {
    ghost use Rattle.std.specs.Prelude.{option_copied};
    ghost use Rattle.am_files.specs.Files as spec;

    ghost Value = { spec.Files };

    ghost view = { λ files. record {
      config = option_copied files.config;
      silences = option_copied files.silences;
      alerts = option_copied files.alerts;
      at = option_copied files.at;
    } };
}

impl<'a> Files<'a> {
    /// The bytes of the configuration, or of the one that is used if none is given.
    pub fn config(&self) -> &'a [u8]
        ensures bytes { result.now ≡ config_of self.now.config }
    {
        match self.config {
            Some(bytes) => bytes,
            None => STAND_IN_CONFIG,
        }
    }
}
