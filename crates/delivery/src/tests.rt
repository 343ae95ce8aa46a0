//! A replica of one ring.

use crate::{Learned, Ready};
use command_codec::is_batch;
use frames::{Body, Frames};
use mrp_config::Deployment;
use mrp_types::limits::VALUE;
use mrp_types::{NodeId, PartitionId, Payload, RingId, Tuple, Value};
use replica_state::ReplicaState;
use ring_learner::RingLearner;
use std::test::Fail;
use transcript::{Line, Lines};

const DEPLOYMENT: &str = "m = 1
lambda = 1
delta = 1
resend = 1
suspect = 1
attempt = 3
checkpoint = 1
trim = 1
window = 1
journal = 1048576

[[node]]
id = 0
address = \"127.0.0.1:7300\"

[[client]]
id = 0
address = \"127.0.0.1:7400\"

[[ring]]
id = 0
acceptors = [0]

[[partition]]
id = 0
replicas = [0]
rings = [0]
home = 0
from = \"\"
to = \"\"
logs = [0]
trim_quorum = 1
recovery_quorum = 1
";

/// A batch of one command of client 1, its first: to append to log 0.
const BATCH: [u8; 20] = [
    1, 0, 1, 1, 0, 0, 0, 0, 0, 0, 0, 1, 0, 6, 1, 0, 0, 2, 111, 107,
];

/// The learner of one ring.
#[derive(Drop)]
struct One {
    learner: RingLearner,
}

impl Learned for One {
    ghost use Rattle.std.specs.Prelude.{[], ◌∷◌};

    ghost maps = { λ o. o.learner.held ∷ [] };

    fn learner(&self, position: u8) -> &RingLearner {
        let _position = position;
        &self.learner
    }
}

#[test]
fn delivers_and_replies(rt: HostRuntime) -> Result<(), Fail> {
    let alloc = rt.alloc();
    let Ok(deployment) = Deployment::from_bytes(alloc, DEPLOYMENT.as_bytes()) else {
        return Err("no deployment".into());
    };
    let mut learner = RingLearner::new(alloc, 0);
    learner.learn(0, 1, &Value::Skip)?;
    let payload = Payload::from_slice(alloc, &BATCH)?;
    assert!(rt; payload.bytes().len() <= VALUE && is_batch(payload.bytes()));
    let value = Value::Batch(payload);
    learner.learn(1, 3, &value)?;
    assert!(rt; deployment.partition(PartitionId(0)).is_some());
    let state = ReplicaState::new(alloc, &deployment, PartitionId(0))?;
    let rounds = deployment.rounds();
    let tuple = Tuple::zero(&[RingId(0)]);
    assert!(rt; tuple.is_valid(&rounds));
    let mut ready = Ready::at(alloc, tuple, &rounds, state);
    let mut lines = Lines::new(alloc);
    let mut replies = Frames::new(alloc);
    let learned = One { learner };
    ready.merge(NodeId(0), &learned, &mut lines, &mut replies)?;
    assert_eq!(rt; ready.tuple().pairs(), [(RingId(0), 3)].as_slice());
    assert_eq!(rt; ready.delivered(), 2);
    assert_eq!(rt; lines.len(), 4);
    assert!(rt;
        matches!(
            lines.items()[0],
            Line::Deliver {
                node: NodeId(0),
                ring: RingId(0),
                inst: 1
            }
        )
    );
    assert!(rt;
        matches!(
            lines.items()[2],
            Line::Deliver {
                node: NodeId(0),
                ring: RingId(0),
                inst: 2
            }
        )
    );
    assert!(rt;
        matches!(
            lines.items()[3],
            Line::Reply {
                inst: 2,
                index: 0,
                seq: 1,
                ..
            }
        )
    );
    assert_eq!(rt; replies.len(), 2);
    assert!(rt; matches!(replies.items()[0].frame.body, Body::Reply { seq: 1, .. }));
    ready.saved();
    assert_eq!(rt; ready.delivered(), 0);
    assert!(rt; ready.write()?.len() > 0);
    Ok(())
}
