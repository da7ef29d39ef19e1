use crate::line::Line;
use crate::version::Version;
use pf_scenario::settings::Settings;

/// The settings that a script opens with.
#[derive(Clone, Copy)]
pub struct ScriptSettings {
    /// The version of the script.
    pub version: Version,
    /// What the scenario is set in.
    pub settings: Settings,
    /// The distance of checkpoints in slots, 1 to `LARGEST_DISTANCE`.
    pub every: u64,
}

/// What a record of a script says.
#[derive(Clone, Copy)]
pub enum Record {
    /// The script is of the second version.
    Heading,
    /// The settings.
    Settings(ScriptSettings),
    /// After the settings, what a desk is asked for.
    Asks(Line),
}

/// A record that was read.
#[derive(Clone, Copy)]
pub struct RecordTold {
    /// Its number, counted from 1.
    pub number: u64,
    /// What it says.
    pub says: Record,
}

/// A record after the settings.
#[derive(Clone, Copy)]
pub struct LineTold {
    /// Its number, counted from 1.
    pub number: u64,
    /// What it asks for.
    pub asks: Line,
}
