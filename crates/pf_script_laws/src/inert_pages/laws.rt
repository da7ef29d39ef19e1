ghost use Rattle.pf_script_laws.specs.InertPages.Page.{DataIsInert, PagesAreInert};

use pf_version_laws::laws::titles_are_told;

/// All that a run tells as JSON has no byte `<`, whatever was run and refused, where the names of tasks are such as a script may
/// give.
pub fn data_is_inert()
    ensures { DataIsInert }
{}

/// A script of any bytes and of any version is written in the format `html` as the head of a page, data without a byte `<`, and the
/// foot; as nothing where a record is bad, the script is too long or more slots were stepped than a page shows.
pub fn pages_are_inert()
    ensures { PagesAreInert }
{
    titles_are_told();
}
