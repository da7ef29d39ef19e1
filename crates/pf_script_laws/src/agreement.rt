//! That `convert` and `fit` agree: of the script that a conversion writes, read by way of version 2 as the program reads it.

ghost use Rattle.pf_script_laws.specs.Agreement.Agree.{ConvertAndFitAgree};
ghost use Rattle.pf_script_laws.specs.Agreement.Fitted.{FitsAreDone};

use pf_version_laws::laws::scripts_are_retold;

/// The answer of `fit` to a script that asks for what a plan's script says ends as done just where the load is within the
/// processors.
pub fn fits_are_done()
    ensures { FitsAreDone }
{}

/// The status of `fit` on the script that a conversion writes is that with which the conversion ended.
pub fn convert_and_fit_agree()
    ensures { ConvertAndFitAgree }
{
    scripts_are_retold();
}
