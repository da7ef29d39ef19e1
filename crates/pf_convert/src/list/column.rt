ghost use Rattle.std.specs.Prelude.{◌≡◌, option_map};
ghost use Rattle.pf_convert.specs.List.Heading.{column_like, column_named, column_word, is_word};

/// A column of a list of tasks, in the order in which a record's fields are looked at.
#[derive(Clone, Copy)]
pub enum Column {
    /// The task's name.
    Name,
    /// The processor time of a job at most.
    Work,
    /// The time between the arrivals of two jobs at least.
    Every,
    /// How long after its arrival a job is to be done.
    Deadline,
    /// When the first job arrives.
    First,
    /// How long before its window a quantum may run.
    Early,
}

impl Column {
    /// The column that a heading names so, in letters of any case.
    #[tactic(auto, unfolding(crate::specs::List::Heading::column_named))]
    pub fn named(field: &[u8]) -> Option<Column>
        ensures { result ≡ column_named field.now }
    {
        if is_word(field, "name") || is_word(field, "task") {
            Some(Column::Name)
        } else if is_word(field, "work")
            || is_word(field, "wcet")
            || is_word(field, "cost")
            || is_word(field, "c")
        {
            Some(Column::Work)
        } else if is_word(field, "every") || is_word(field, "period") || is_word(field, "t") {
            Some(Column::Every)
        } else if is_word(field, "deadline") || is_word(field, "d") {
            Some(Column::Deadline)
        } else if is_word(field, "first") {
            Some(Column::First)
        } else if is_word(field, "early") {
            Some(Column::Early)
        } else {
            None
        }
    }

    /// The column that is meant by a word which others use for it.
    #[tactic(auto, unfolding(crate::specs::List::Heading::column_like))]
    pub fn like(field: &[u8]) -> Option<Column>
        ensures { result ≡ column_like field.now }
    {
        if is_word(field, "execution") || is_word(field, "runtime") || is_word(field, "budget") {
            Some(Column::Work)
        } else if is_word(field, "p") || is_word(field, "interval") {
            Some(Column::Every)
        } else if is_word(field, "due") {
            Some(Column::Deadline)
        } else if is_word(field, "offset")
            || is_word(field, "phase")
            || is_word(field, "start")
            || is_word(field, "arrival")
        {
            Some(Column::First)
        } else if is_word(field, "id") {
            Some(Column::Name)
        } else {
            None
        }
    }

    /// The word by which it is told.
    pub fn word(self) -> &'static str
        ensures { result.now ≡ column_word self }
    {
        match self {
            Column::Name => "name",
            Column::Work => "work",
            Column::Every => "every",
            Column::Deadline => "deadline",
            Column::First => "first",
            Column::Early => "early",
        }
    }
}

/// Whether a field is a word, in letters of any case.
pub fn is_word(field: &[u8], word: &str) -> bool
    ensures { result ≡ is_word field.now word.now }
{
    field.eq_ignore_ascii_case(word.as_bytes())
}
