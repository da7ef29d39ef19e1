ghost use Rattle.pf_convert.specs.Conversion.Laws.{AnswersAgree};

/// The table, JSON and the script's status tell alike whether a plan fits the processors: it does just where its load is
/// within them.
pub fn answers_agree()
    ensures { AnswersAgree }
{}
