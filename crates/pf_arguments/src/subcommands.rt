//! The subcommands and their arguments, as help tells of them.
ghost use Rattle.std.specs.Prelude.{◌≡◌};
ghost use Rattle.pf_arguments.specs.CommandLine.{check_command, convert_command, desk_command, diff_command, drill_command, fit_command, run_command, why_command};
ghost use Rattle.pf_arguments.specs.Rows.{shape_of_subcommand};

use crate::argument::Argument;
use crate::form::Form;
use crate::subcommand::Subcommand;

/// `fit`.
pub(crate) fn fit() -> Subcommand
    ensures { shape_of_subcommand result ≡ fit_command }
{
    Subcommand {
        name: "fit",
        about: "Tells whether a plan or a list of tasks fits, and what that rests on",
        arguments: FIT,
    }
}

const FIT: &[Argument] = &[
    Argument {
        name: "quantum",
        letter: None,
        form: Form::Named("QUANTA"),
        is_required: false,
        help: "of a list: how long a slot is [default: tried]",
    },
    Argument {
        name: "processors",
        letter: None,
        form: Form::Named("M"),
        is_required: false,
        help: "of a list: 1 to 64 [default: as many as needed]",
    },
    Argument {
        name: "switch",
        letter: None,
        form: Form::Named("C"),
        is_required: false,
        help: "of a list: what a switch takes [default: 0]",
    },
    Argument {
        name: "arrivals",
        letter: None,
        form: Form::Named("HOW"),
        is_required: false,
        help: "of a list: aligned or any [default: aligned]",
    },
    Argument {
        name: "unit",
        letter: None,
        form: Form::Named("UNIT"),
        is_required: false,
        help: "of a list: ns, us, ms or s [default: ms]",
    },
    TEXT_OR_JSON,
    OUTPUT,
    Argument {
        name: "file",
        letter: None,
        form: Form::Placed("FILE"),
        is_required: false,
        help: "a plan, a script or a list of tasks; - or none: standard input",
    },
];

/// `run`, also asked for by no words at all.
pub(crate) fn run() -> Subcommand
    ensures { shape_of_subcommand result ≡ run_command }
{
    Subcommand {
        name: "run",
        about: "Runs a plan or script; also without any words",
        arguments: RUN,
    }
}

const RUN: &[Argument] = &[
    Argument {
        name: "format",
        letter: Some('f'),
        form: Form::Named("FORMAT"),
        is_required: false,
        help: "how it is shown, see below [default: tables]",
    },
    OUTPUT,
    Argument {
        name: "from",
        letter: None,
        form: Form::Named("F"),
        is_required: false,
        help: "the first slot that is shown [default: 0]",
    },
    Argument {
        name: "to",
        letter: None,
        form: Form::Named("T"),
        is_required: false,
        help: "the slots below T are shown [default: all stepped]",
    },
    Argument {
        name: "task",
        letter: None,
        form: Form::Named("LIST"),
        is_required: false,
        help: "these tasks alone: numbers, ranges, names: 3,7-9",
    },
    Argument {
        name: "fail-on",
        letter: None,
        form: Form::Named("LIST"),
        is_required: false,
        help: "refused, denied, missed: status 6 if one was met",
    },
    Argument {
        name: "cell",
        letter: None,
        form: Form::Named("W"),
        is_required: false,
        help: "svg: how wide a slot is, 6 to 40 [default: 20]",
    },
    Argument {
        name: "wrap",
        letter: None,
        form: Form::Named("V"),
        is_required: false,
        help: "svg: slots side by side, 1 to 4096 [default: all]",
    },
    Argument {
        name: "style",
        letter: None,
        form: Form::Named("NAME"),
        is_required: false,
        help: "svg: strips or stairs [default: strips]",
    },
    Argument {
        name: "notes",
        letter: None,
        form: Form::Flag,
        is_required: false,
        help: "notes of standard input too",
    },
    QUIET,
    FILE,
];

/// `why`.
pub(crate) fn why() -> Subcommand
    ensures { shape_of_subcommand result ≡ why_command }
{
    Subcommand {
        name: "why",
        about: "Tells one slot: who may run, in which order and why, who waits",
        arguments: WHY,
    }
}

const WHY: &[Argument] = &[
    Argument {
        name: "slot",
        letter: None,
        form: Form::Placed("SLOT"),
        is_required: true,
        help: "the slot, one of those stepped",
    },
    Argument {
        name: "task",
        letter: None,
        form: Form::Named("T"),
        is_required: false,
        help: "also why this task runs, waits, or does neither",
    },
    TEXT_OR_JSON,
    OUTPUT,
    NOTES,
    QUIET,
    FILE,
];

/// `check`.
pub(crate) fn check() -> Subcommand
    ensures { shape_of_subcommand result ≡ check_command }
{
    Subcommand {
        name: "check",
        about: "Tells where a plan or script is wrong, and what would be right",
        arguments: CHECK,
    }
}

const CHECK: &[Argument] = &[
    Argument {
        name: "run",
        letter: None,
        form: Form::Flag,
        is_required: false,
        help: "also what is refused, denied or missed in its run",
    },
    OUTPUT,
    Argument {
        name: "quiet",
        letter: Some('q'),
        form: Form::Flag,
        is_required: false,
        help: "no hints",
    },
    FILE,
];

/// `diff`.
pub(crate) fn diff() -> Subcommand
    ensures { shape_of_subcommand result ≡ diff_command }
{
    Subcommand {
        name: "diff",
        about: "Tells what the last records changed, or how two plans differ",
        arguments: DIFF,
    }
}

const DIFF: &[Argument] = &[
    Argument {
        name: "since",
        letter: None,
        form: Form::Named("RECORD"),
        is_required: false,
        help: "from this record on [default: the last one]",
    },
    Argument {
        name: "summary",
        letter: None,
        form: Form::Flag,
        is_required: false,
        help: "first a table of sums",
    },
    Argument {
        name: "exit-code",
        letter: None,
        form: Form::Flag,
        is_required: false,
        help: "status 1 where something differs",
    },
    OUTPUT,
    NOTES,
    QUIET,
    FILE,
    Argument {
        name: "second",
        letter: None,
        form: Form::Placed("FILE2"),
        is_required: false,
        help: "a second one: how it differs from the first",
    },
];

/// `convert`.
pub(crate) fn convert() -> Subcommand
    ensures { shape_of_subcommand result ≡ convert_command }
{
    Subcommand {
        name: "convert",
        about: "Turns a list of tasks in time into a plan",
        arguments: CONVERT,
    }
}

const CONVERT: &[Argument] = &[
    Argument {
        name: "quantum",
        letter: None,
        form: Form::Named("QUANTA"),
        is_required: false,
        help: "how long a slot is, or several [default: tried]",
    },
    Argument {
        name: "processors",
        letter: None,
        form: Form::Named("M"),
        is_required: false,
        help: "1 to 64 [default: as many as are needed]",
    },
    Argument {
        name: "switch",
        letter: None,
        form: Form::Named("C"),
        is_required: false,
        help: "what a switch takes of each quantum [default: 0]",
    },
    Argument {
        name: "arrivals",
        letter: None,
        form: Form::Named("HOW"),
        is_required: false,
        help: "aligned or any [default: aligned]",
    },
    Argument {
        name: "unit",
        letter: None,
        form: Form::Named("UNIT"),
        is_required: false,
        help: "ns, us, ms or s, of bare times [default: ms]",
    },
    Argument {
        name: "format",
        letter: Some('f'),
        form: Form::Named("FORMAT"),
        is_required: false,
        help: "script, table or json [default: script or table]",
    },
    OUTPUT,
    Argument {
        name: "file",
        letter: None,
        form: Form::Placed("FILE"),
        is_required: false,
        help: "the list of tasks; - or none: standard input",
    },
];

/// `desk`.
pub(crate) fn desk() -> Subcommand
    ensures { shape_of_subcommand result ≡ desk_command }
{
    Subcommand {
        name: "desk",
        about: "A session: each line is answered before the next is read",
        arguments: DESK,
    }
}

const DESK: &[Argument] = &[
    Argument {
        name: "json",
        letter: None,
        form: Form::Flag,
        is_required: false,
        help: "each answer as a JSON object, on one line",
    },
    Argument {
        name: "journal",
        letter: None,
        form: Form::Named("FILE"),
        is_required: false,
        help: "keep each record in FILE, and begin with its own",
    },
    Argument {
        name: "quiet",
        letter: Some('q'),
        form: Form::Flag,
        is_required: false,
        help: "no sentences, hints and sums, and no prompt",
    },
    Argument {
        name: "file",
        letter: None,
        form: Form::Placed("SCRIPT"),
        is_required: false,
        help: "its records come first, without answers",
    },
];

/// `drill`.
pub(crate) fn drill() -> Subcommand
    ensures { shape_of_subcommand result ≡ drill_command }
{
    Subcommand {
        name: "drill",
        about: "Tests the shared desk: a thread for each processor takes its quanta",
        arguments: DRILL,
    }
}

const DRILL: &[Argument] = &[
    Argument {
        name: "notes",
        letter: None,
        form: Form::Flag,
        is_required: false,
        help: "notes of standard input",
    },
    QUIET,
];

// What several subcommands have.

const TEXT_OR_JSON: Argument = Argument {
    name: "format",
    letter: Some('f'),
    form: Form::Named("FORMAT"),
    is_required: false,
    help: "text or json [default: text]",
};

const OUTPUT: Argument = Argument {
    name: "output",
    letter: Some('o'),
    form: Form::Named("FILE"),
    is_required: false,
    help: "write to FILE, once it is whole",
};

// These commands tell notes in any case.
const NOTES: Argument = Argument {
    name: "notes",
    letter: None,
    form: Form::Flag,
    is_required: false,
    help: "",
};

const QUIET: Argument = Argument {
    name: "quiet",
    letter: Some('q'),
    form: Form::Flag,
    is_required: false,
    help: "no notes and no hints",
};

const FILE: Argument = Argument {
    name: "file",
    letter: None,
    form: Form::Placed("FILE"),
    is_required: false,
    help: "the plan or script; - or none: standard input",
};
