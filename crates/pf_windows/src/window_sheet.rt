ghost use Rattle.std.specs.Prelude.{◌≡◌};

use crate::line::push_window;
use crate::task_windows::TaskWindows;
use pf_text::sheets::Sheet;
use pf_text::table::Table;
use pf_vocabulary::names::titles::Titles;
use std::alloc::AllocError;
use std::marker::Model;

/// The windows of a task, and what the script calls it.
#[derive(Drop)]
pub struct WindowSheet<'a> {
    windows: TaskWindows,
    titles: &'a Titles,
}

impl<'a> Model for WindowSheet<'a> {
    ghost use Rattle.pf_windows.specs.Told.{NamedTold};

    ghost Value = { NamedTold };

    ghost view = { λ s. record { told = s.windows; titles = s.titles.now } };
}

impl<'a> WindowSheet<'a> {
    /// These windows.
    pub(crate) fn new(windows: TaskWindows, titles: &'a Titles) -> Self
        ensures { result ≡ record { told = windows; titles = titles.now } }
    {
        WindowSheet { windows, titles }
    }
}

impl Sheet for WindowSheet<'_> {
    ghost use Rattle.pf_windows.specs.Told.{named_behind_sub, sub_count};

    ghost count = { λ s. sub_count s.told };

    ghost rest = { named_behind_sub };

    fn count(&self) -> u64 {
        self.windows.sub_count()
    }

    fn push_place(&self, table: &mut Table, at: u64) -> Result<(), AllocError> {
        // That a place after this one can be counted is known from the count alone.
        let _ = self.windows.sub_count();
        let window = self.windows.window(at + 1);
        if self.windows.shows(window) {
            push_window(table, self.windows.task(), window, self.titles)
        } else {
            Ok(())
        }
    }
}
