//! Lists of rings and logs.

ghost use Rattle.std.specs.Prelude.{◌≡◌};
ghost use Rattle.mrp_config.specs.Config.{has_ring as has_ring_lem, has_log as has_log_lem};

use mrp_types::{Items, LogId, RingId};

/// Rings in increasing order.
pub type RingIds = Items<RingId>;

/// Logs in increasing order.
pub type LogIds = Items<LogId>;

/// Whether the ring is one of them.
pub fn has_ring(rings: &[RingId], ring: RingId) -> bool
    ensures { result ≡ has_ring_lem rings.now ring.0 }
{
    rings.contains(&ring)
}

/// Whether the log is one of them.
pub fn has_log(logs: &[LogId], log: LogId) -> bool
    ensures { result ≡ has_log_lem logs.now log.0 }
{
    logs.contains(&log)
}
