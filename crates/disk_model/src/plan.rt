//! Which calls of a disk in memory are to fail.
ghost use Rattle.std.specs.Prelude.{◌≡◌, ◌≤◌, None, Some, true, false};
ghost use Rattle.disk_model.specs.declared.area.Refused.TheVariants.{Memory};

use crate::Refused;

/// After how many calls that pass a fault comes; none where there is no number. `fuse` and `fail` count
/// the calls that write, cut or sync, `fail_read` counts reads. A fuse that has burnt down fails each
/// call of every kind; the other two fail one call.
#[derive(Drop, Debug)]
pub struct Plan {
    pub fuse: Option<u32>,
    pub fail: Option<u32>,
    pub fail_read: Option<u32>,
}

/// A plan, whether its fuse has stopped a call, how many calls have failed, and how many have found no memory.
#[derive(Drop, Debug)]
pub struct Trouble {
    pub plan: Plan,
    pub stopped: bool,
    pub faults: u64,
    pub wants: u64,
}

impl Trouble {
    ghost use Rattle.disk_model.specs.Causes.{no_trouble, falls_on_change, falls_on_read, falls_on_len, change_passed, read_passed, change_failed, read_failed, len_failed, troubled, untroubled, wanting};

    /// No call is to fail, and none has.
    pub fn none() -> Trouble
        ensures { result ≡ no_trouble }
    {
        Trouble {
            plan: Plan {
                fuse: None,
                fail: None,
                fail_read: None,
            },
            stopped: false,
            faults: 0,
            wants: 0,
        }
    }

    /// Whether the next write, cut or sync is to fail.
    pub fn falls_on_change(&self) -> bool
        ensures { result ≡ falls_on_change self.now.plan }
    {
        has_come(self.plan.fuse) || has_come(self.plan.fail)
    }

    /// Whether the next read is to fail.
    pub fn falls_on_read(&self) -> bool
        ensures { result ≡ falls_on_read self.now.plan }
    {
        has_come(self.plan.fuse) || has_come(self.plan.fail_read)
    }

    /// Whether a question for a length is to fail.
    pub fn falls_on_len(&self) -> bool
        ensures { result ≡ falls_on_len self.now.plan }
    {
        has_come(self.plan.fuse)
    }

    /// A write, cut or sync has passed.
    pub fn pass_change(&mut self)
        ensures { self.new ≡ untroubled change_passed self.old }
    {
        self.plan.fuse = one_less(self.plan.fuse);
        self.plan.fail = one_less(self.plan.fail);
    }

    /// A read has passed.
    pub fn pass_read(&mut self)
        ensures { self.new ≡ untroubled read_passed self.old }
    {
        self.plan.fail_read = one_less(self.plan.fail_read);
    }

    /// A write, cut or sync has failed.
    pub fn fail_change(&mut self)
        ensures after { self.new ≡ troubled change_failed self.old }
        ensures later { self.old.faults ≤ self.new.faults }
    {
        self.count();
        self.plan.fail = used_up(self.plan.fail);
    }

    /// A read has failed.
    pub fn fail_read(&mut self)
        ensures after { self.new ≡ troubled read_failed self.old }
        ensures later { self.old.faults ≤ self.new.faults }
    {
        self.count();
        self.plan.fail_read = used_up(self.plan.fail_read);
    }

    /// A question for a length has failed.
    pub fn fail_len(&mut self)
        ensures after { self.new ≡ troubled len_failed self.old }
        ensures later { self.old.faults ≤ self.new.faults }
    {
        self.count();
    }

    /// A call has found no memory, and this is its answer.
    pub fn want(&mut self) -> Refused
        ensures after { self.new ≡ wanting self.old }
        ensures answer { result ≡ Memory }
        ensures later { self.old.wants ≤ self.new.wants }
    {
        self.wants = self.wants.saturating_add(1);
        Refused::Memory
    }

    // A call of any kind has failed.
    fn count(&mut self)
        ensures after { self.new ≡ troubled len_failed self.old }
        ensures later { self.old.faults ≤ self.new.faults }
    {
        self.stopped = self.stopped || has_come(self.plan.fuse);
        self.faults = self.faults.saturating_add(1);
    }
}

ghost use Rattle.disk_model.specs.Causes.{falls, passed, spent};

// The next call is the one.
fn has_come(left: Option<u32>) -> bool
    ensures { result ≡ falls left }
{
    match left {
        Some(n) => n == 0,
        None => false,
    }
}

// A call has passed.
fn one_less(left: Option<u32>) -> Option<u32>
    ensures { result ≡ passed left }
{
    match left {
        Some(n) => {
            if n == 0 {
                return Some(0);
            }
            Some(n - 1)
        }
        None => None,
    }
}

// A call has failed.
fn used_up(left: Option<u32>) -> Option<u32>
    ensures { result ≡ spent left }
{
    match left {
        Some(n) => {
            if n == 0 {
                return None;
            }
            Some(n)
        }
        None => None,
    }
}
