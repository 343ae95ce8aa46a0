//! The deployment of all cases.

/// Two partitions of three replicas: the first one needs two answers, the second one three; three ticks.
pub const DEPLOYMENT: &str = "m = 1
lambda = 1
delta = 1
resend = 1
suspect = 1
attempt = 3
checkpoint = 1
trim = 1
window = 1
journal = 1048576

[[node]]
id = 0
address = \"127.0.0.1:7300\"

[[node]]
id = 1
address = \"127.0.0.1:7301\"

[[node]]
id = 2
address = \"127.0.0.1:7302\"

[[node]]
id = 3
address = \"127.0.0.1:7303\"

[[node]]
id = 4
address = \"127.0.0.1:7304\"

[[node]]
id = 5
address = \"127.0.0.1:7305\"

[[client]]
id = 0
address = \"127.0.0.1:7400\"

[[ring]]
id = 0
acceptors = [0, 1, 2]

[[partition]]
id = 0
replicas = [2, 0, 1]
rings = [0]
home = 0
from = \"\"
to = \"6d\"
logs = []
trim_quorum = 2
recovery_quorum = 2

[[partition]]
id = 1
replicas = [5, 4, 3]
rings = [0]
home = 0
from = \"6d\"
to = \"\"
logs = []
trim_quorum = 1
recovery_quorum = 3
";
