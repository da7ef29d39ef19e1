ghost use Rattle.pf_script_laws.specs.Titles.Titled.{TitledScriptsAreRead};

/// The script of a snapshot with titles, in wide settings, is a plan without a bad record. The names and the length of a
/// slot that it tells are those titles, and the script of version 2 that belongs to it is that of the snapshot without them.
pub fn titled_scripts_are_read()
    ensures { TitledScriptsAreRead }
{}
