ghost use Rattle.std.specs.Prelude.{◌≡◌};
ghost use Rattle.pf_c_api.specs.Told.{raw_settings};

use pf_scenario::settings::Settings;

/// What a desk was opened with, as C gets it.
#[repr(C)]
#[derive(Clone, Copy)]
pub struct RawSettings {
    /// 1 to 64.
    pub processors: u64,
    /// A number that each period divides, 1 to 2^30.
    pub base: u64,
    /// The most load that joins may make, in 1/h, 1 to 2^44.
    pub cap: u64,
    /// A checkpoint is kept each so many slots, 1 to 4,096.
    pub every: u64,
    /// 2^20 or 2^22: slots are below it.
    pub horizon: u64,
}

impl RawSettings {
    /// The settings of a desk with such a distance of checkpoints.
    pub fn of(settings: Settings, every: u64) -> RawSettings
        ensures { result ≡ raw_settings settings every }
    {
        RawSettings {
            processors: u64::from(settings.processors()),
            base: settings.base().get(),
            cap: settings.cap(),
            every,
            horizon: settings.horizon(),
        }
    }
}
