//! The deployment of all cases.

/// Three partitions: keys below `6d` with log 0, those below `80` with log 1, and all others with logs 2, 7 and 63.
pub const DEPLOYMENT: &str = "m = 1
lambda = 1
delta = 1
resend = 1
suspect = 1
attempt = 3
checkpoint = 1
trim = 1
window = 1
journal = 1048576

[[node]]
id = 0
address = \"127.0.0.1:7300\"

[[node]]
id = 1
address = \"127.0.0.1:7301\"

[[node]]
id = 2
address = \"127.0.0.1:7302\"

[[client]]
id = 0
address = \"127.0.0.1:7400\"

[[ring]]
id = 0
acceptors = [0]

[[partition]]
id = 0
replicas = [0]
rings = [0]
home = 0
from = \"\"
to = \"6d\"
logs = [0]
trim_quorum = 1
recovery_quorum = 1

[[partition]]
id = 1
replicas = [1]
rings = [0]
home = 0
from = \"6d\"
to = \"80\"
logs = [1]
trim_quorum = 1
recovery_quorum = 1

[[partition]]
id = 2
replicas = [2]
rings = [0]
home = 0
from = \"80\"
to = \"\"
logs = [2, 7, 63]
trim_quorum = 1
recovery_quorum = 1
";
