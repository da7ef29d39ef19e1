use pf_desk::entry::Entry;
use pf_scenario::settings::Settings;
use std::collections::LinkedList;

/// A history that was given a number, and the settings under which it is legal. No value of it is made.
pub struct Story {
    pub settings: Settings,
    pub entries: LinkedList<Entry>,
}
