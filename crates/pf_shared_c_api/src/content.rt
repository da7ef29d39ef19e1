use pf_desk::snapshot::Snapshot;
use pf_shared_desk::caller::Caller;
use pf_shared_desk::opened::Opened;
use pf_shared_desk::reader::Reader;
use std::sync::Arc;

/// What a handle has.
#[derive(Drop)]
pub enum Content {
    /// A shared desk: the callers and readers that nobody has yet.
    Desk(Opened),
    /// A caller.
    Caller(Caller),
    /// A reader.
    Reader(Reader),
    /// A snapshot.
    Snapshot(Arc<Snapshot>),
}
