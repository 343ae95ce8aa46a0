//! The order of epochs in a journal.
ghost use Rattle.std.specs.Prelude.{◌≡◌};
ghost use Rattle.vote_journal.specs.Epochs.{epochs_rise};

use vote_state::Change;

/// Whether each epoch of these changes is greater than the one before it, the first than `before`.
pub fn do_epochs_rise(before: u32, changes: &[Change]) -> bool
    ensures { result ≡ epochs_rise before changes.now }
{
    let mut last = before;
    for change in changes {
        if let Change::Epoch(epoch) = change {
            if *epoch <= last {
                return false;
            }
            last = *epoch;
        }
    }
    true
}
