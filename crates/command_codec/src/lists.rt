//! Lists of entries, logs, positions and table entries.

use crate::{LogPosition, TableEntry};
use mrp_types::{Entry, Items, LogId};

/// The entries of a batch.
pub type Entries = Items<Entry>;

/// The logs of a multi-append.
pub type Logs = Items<LogId>;

/// Positions of logs.
pub type LogPositions = Items<LogPosition>;

/// Keys with their values.
pub type TableEntries = Items<TableEntry>;
