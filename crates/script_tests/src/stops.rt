//! Scripts of durable replicas: each line with its reply, as worked by hand.

use crate::scripts::Script;

pub const STOPS: [Script; 4] = [
    // What is received is lost by a stop, but for whole records that outlive it; what is sent syncs all.
    Script {
        header: "keep 2 2",
        rows: &[
            ("do 0 counter:c inc 5", "ok 1"),
            ("give 1 0 1", "took 0:1"),
            ("stop 1 27", "open 0"),
            ("ask 1 counter:c", "= 0"),
            ("give 1 0 1", "took 0:1"),
            ("stop 1 28", "open 2"),
            ("ask 1 counter:c", "= 5"),
            ("beat 1", "ok 1"),
            ("stop 1 0", "open 3"),
            ("give 0 1 1", "took 1:1"),
            ("stop 0 20", "open 1"),
            ("seen 0", "seen 1 0"),
            ("give 0 1 1", "took 1:1"),
            ("stop 0 21", "open 3"),
        ],
    },
    // Each command answers as in a store, and a stop that nothing is lost by changes no answer.
    Script {
        header: "keep 2 2",
        rows: &[
            ("do 0 awset:s add x", "ok 1"),
            ("do 0 mvreg:m write y", "ok 2"),
            ("do 0 counter:c inc 1", "busy"),
            ("give 1 0 2", "kept"),
            ("give 1 0 2", "again"),
            ("stop 1 4294967295", "open 1"),
            ("give 1 0 2", "again"),
            ("give 1 0 1", "took 0:1 0:2"),
            ("give 1 0 1", "old"),
            ("give 1 0 3", "unsent"),
            ("stop 1 4294967295", "open 4"),
            ("log 1", "log"),
            ("log 0", "log 0:1 0:2"),
            ("beat 1", "ok 1"),
            ("beat 1", "quiet"),
            ("give 0 1 1", "took 1:1"),
            ("stop 0 4294967295", "open 4"),
            ("log 0", "log"),
            ("size 0", "size 0 2"),
            ("stable 0", "stable 2 1"),
            ("ask 0 awset:s", "= x"),
            ("ask 0 mvreg:m", "= y"),
        ],
    },
    // An early message that is lost makes room for the one before it; the stopped replica sends on from its last number.
    Script {
        header: "keep 3 1",
        rows: &[
            ("do 0 ewflag:f enable", "ok 1"),
            ("give 1 0 1", "took 0:1"),
            ("do 1 ewflag:f disable", "ok 1"),
            ("give 2 1 1", "kept"),
            ("stop 2 0", "open 0"),
            ("give 2 0 1", "took 0:1"),
            ("ask 2 ewflag:f", "= on"),
            ("stop 1 0", "open 3"),
            ("do 1 dwflag:g enable", "busy"),
            ("give 2 1 1", "took 1:1"),
            ("ask 2 ewflag:f", "= off"),
        ],
    },
    // What such scripts don't have.
    Script {
        header: "keep 2 2",
        rows: &[
            ("settle", "bad 2"),
            ("resend 0 1", "bad 2"),
            ("raw 0 01", "bad 2"),
            ("members 3", "bad 2"),
            ("noops 0", "bad 2"),
            ("lags 0", "bad 2"),
            ("stop 2 0", "bad 4"),
            ("stop 0 x", "bad 8"),
            ("stop 0", "bad 3"),
            ("stop 0 0", "open 0"),
        ],
    },
];
