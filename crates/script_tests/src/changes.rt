//! Scripts in which the members change: each line with its reply, as worked by hand.

use crate::scripts::Script;

pub const CHANGES: [Script; 5] = [
    // A third member begins with what the others have, and its remove comes to one of them; then one member is left.
    Script {
        header: "store 2 2",
        rows: &[
            ("do 0 awset:s add x", "ok 1"),
            ("members 3", "unsettled"),
            ("settle", "settled"),
            ("members 3", "epoch 1"),
            ("ask 2 awset:s", "= x"),
            ("seen 2", "seen 0 0 0"),
            ("log 2", "log"),
            ("size 2", "size 0 1"),
            ("give 0 0 1", "unsent"),
            ("raw 1 01000201000000010000000001730178", "bad frame 2"),
            (
                "raw 1 02000201000000000000000100000000000173000178",
                "bad frame 10",
            ),
            ("do 2 awset:s rmv x", "ok 1"),
            ("give 0 2 1", "took 2:1"),
            ("ask 0 awset:s", "="),
            ("ask 1 awset:s", "= x"),
            ("members 1", "unsettled"),
            ("settle", "settled"),
            ("members 1", "epoch 2"),
            ("ask 0 awset:s", "="),
            ("ask 1 awset:s", "bad 4"),
            ("members 17", "bad 8"),
        ],
    },
    // One member becomes sixteen, and they become one.
    Script {
        header: "store 1 1",
        rows: &[
            ("do 0 counter:a inc 5", "ok 1"),
            ("members 16", "epoch 1"),
            ("ask 15 counter:a", "= 5"),
            ("do 15 counter:a inc 2", "ok 1"),
            ("ask 0 counter:a", "= 5"),
            ("members 1", "unsettled"),
            ("settle", "settled"),
            ("members 1", "epoch 2"),
            ("ask 0 counter:a", "= 7"),
            ("ask 15 counter:a", "bad 4"),
        ],
    },
    // A message that waits hinders no change, and is gone after it: its frame says another epoch.
    Script {
        header: "store 2 1",
        rows: &[
            (
                "raw 1 0200020f0000000100000001000000000001630000000a",
                "bad frame 10",
            ),
            (
                "raw 1 0200020f00000000000000020000000000016300000001",
                "kept",
            ),
            ("members 2", "epoch 1"),
            (
                "raw 1 0200020f00000000000000020000000000016300000001",
                "bad frame 10",
            ),
            (
                "raw 1 0200020f0000000100000001000000000001630000000a",
                "took 0:1",
            ),
            ("ask 1 counter:c", "= 10"),
            ("log 1", "log"),
            ("seen 1", "seen 1 0"),
        ],
    },
    // Numbers begin with 1 again and the window is empty; no-ops of the epoch before aren't waited for.
    Script {
        header: "store 2 1",
        rows: &[
            ("do 0 awset:s add x", "ok 1"),
            ("do 0 awset:s add x", "busy"),
            ("settle", "settled"),
            ("noops 1", "noops 1"),
            ("lags 1", "lags 0"),
            ("members 3", "epoch 1"),
            ("noops 1", "noops 0"),
            ("lags 1", "lags none"),
            ("do 0 awset:s add y", "ok 1"),
            ("do 0 awset:s add y", "busy"),
            ("lags 0", "lags 1"),
            ("give 2 0 1", "took 0:1"),
            ("ask 2 awset:s", "= x y"),
            ("beat 2", "ok 1"),
            ("noops 2", "noops 1"),
            ("lags 2", "lags 0"),
            ("stable 2", "stable 0 0 0"),
            ("log 2", "log 0:1"),
            ("size 2", "size 1 1"),
        ],
    },
    // Two replicas differ by messages that are stable nowhere else, and never settle.
    Script {
        header: "store 3 4",
        rows: &[
            (
                "raw 1 0100030f000000010000000000000000016300000001",
                "took 0:1",
            ),
            (
                "raw 2 0100030f000000010000000000000000016300000002",
                "took 0:1",
            ),
            ("settle", "unsettled"),
            ("members 3", "unsettled"),
            ("members 0", "bad 8"),
        ],
    },
];
