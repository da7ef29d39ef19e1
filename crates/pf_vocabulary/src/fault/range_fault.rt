use thiserror::Error;

/// Why a range of slots can't be shown.
#[derive(Clone, Copy, Debug, PartialEq, Eq, Error)]
pub enum RangeFault {
    /// It is not within the slots stepped, which are so many.
    #[error("range not within {0} slots")]
    NotWithin(u64),
    /// It has more slots than a picture may show, which are 4,096.
    #[error("range too long")]
    TooLong,
}
