//! An entry of a journal, with its line.
use best_monitor::Reply;
use best_turn::Entry;
use pool_monitor::DeskRequest;

/// An entry, and on which line of its journal it stands.
#[derive(Clone, Copy, Drop)]
pub struct EntryLine<'a> {
    pub line: u64,
    pub entry: &'a Entry<DeskRequest, Reply>,
}
