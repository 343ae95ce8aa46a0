//! Names of the parts of a deployment, and numbers of instances and ballots.

ghost use Rattle.std.specs.Prelude.{◌≡◌, ◌+◌, ◌/◌};

/// A ring of acceptors; it orders the commands of one group. Below 16 in a deployment.
#[derive(Clone, Copy, Debug, PartialEq, Eq, PartialOrd, Ord, Hash)]
pub struct RingId(pub u8);

/// A node: an acceptor, a replica or both. Below 32 in a deployment.
#[derive(Clone, Copy, Debug, PartialEq, Eq, PartialOrd, Ord, Hash)]
pub struct NodeId(pub u8);

/// A client, which asks one command at a time.
#[derive(Clone, Copy, Debug, PartialEq, Eq, PartialOrd, Ord, Hash)]
pub struct ClientId(pub u8);

/// A partition: the replicas that subscribe to the same rings. Below 16 in a deployment.
#[derive(Clone, Copy, Debug, PartialEq, Eq, PartialOrd, Ord, Hash)]
pub struct PartitionId(pub u8);

/// A shared log. Below 64.
#[derive(Clone, Copy, Debug, PartialEq, Eq, PartialOrd, Ord, Hash)]
pub struct LogId(pub u8);

/// The number of a consensus instance of one ring, from 0 on and below [`END`].
pub type Inst = u64;

/// No instance has this number or a greater one: the end of all ranges of instances.
pub const END: Inst = 1 << 40;

/// The number of a ballot. 0 stands for no ballot.
pub type Ballot = u64;

/// Who sends a frame or is sent one.
#[derive(Clone, Copy, Debug, PartialEq, Eq)]
pub enum Party {
    Node(NodeId),
    Client(ClientId),
}

/// How many of `n` acceptors are a majority.
pub fn majority(n: u8) -> u8
    ensures { result ≡ n / 2 + 1 }
{
    n / 2 + 1
}
