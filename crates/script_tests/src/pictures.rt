//! What pictures and tables show: no clause says it.

use script_draw::{DrawFault, MOST_MARKS, picture, put_escaped, table};
use std::alloc::Global;
use std::test::Fail;

/// The picture of a script.
fn drawn(alloc: Global, script: &str) -> Result<String, Fail> {
    match picture(alloc, script.as_bytes()) {
        Ok(picture) => Ok(picture),
        Err(_) => Err("no picture".into()),
    }
}

/// A script, texts that its picture has, and one that it hasn't.
struct Picture {
    script: &'static str,
    has: &'static [&'static str],
    lacks: &'static str,
}

/// What no picture has.
const NOTHING: &str = "no such mark";

const PICTURES: [Picture; 7] = [
    // Marks and labels.
    Picture {
        script: "store 2 4\ndo 0 awset:s add <&>\"x\ngive 1 0 1\nask 1 awset:s\nmore\nsettle\n",
        has: &[
            "class=\"p\">0:1</text>",
            "class=\"p\">awset:s</text>",
            "class=\"p\">add &lt;&amp;&gt;&quot;x</text>",
            "marker-end=\"url(#d)\"",
            "class=\"a\">= &lt;&amp;&gt;&quot;x</text>",
            "class=\"r\">bad 2</text>",
            "class=\"p\">settled</text>",
        ],
        lacks: NOTHING,
    },
    // Early and repeated messages, and dropped and raw ones.
    Picture {
        script: "store 3 4\ndo 0 mvreg:r write a\ngive 1 0 1\ndo 1 mvreg:r write b\ngive 2 1 1\ngive 2 1 1\ngive 2 0 1\n",
        has: &[
            "class=\"e\">kept</text>",
            "url(#k)",
            "class=\"i\">again</text>",
            "url(#o)",
            "#f0b850",
        ],
        lacks: NOTHING,
    },
    Picture {
        script: "store 3 4\ndo 2 counter:c inc 1\ngive 0 2 1\ndo 0 counter:c inc 1\ngive 2 0 1\nraw 2 0201030f0000000000000001000000010000000000016300000005\nraw 2 0201030f0000000000000001000000010000000100016300000005\n",
        has: &[
            "class=\"r\">dropped</text>",
            "class=\"p\">raw</text>",
            "#8040a0",
        ],
        lacks: NOTHING,
    },
    // Lines begin and end with epochs. Message 1 of member 0 in the epoch before is another.
    Picture {
        script: "store 2 4\ndo 0 counter:c inc 1\nmembers 3\nsettle\nmembers 3\nraw 2 0200030f0000000100000001000000000000000000016300000001\n",
        has: &[
            "class=\"r\">members 3</text>",
            "class=\"r\">unsettled</text>",
            "class=\"p\">epoch 1</text>",
            "class=\"l\">replica 2</text>",
            "class=\"p\">raw</text>",
            "the next epoch begins",
        ],
        lacks: NOTHING,
    },
    Picture {
        script: "store 2 4\nmembers 1\n",
        has: &["class=\"p\">members 1</text>", "is no member any more"],
        lacks: NOTHING,
    },
    // A stop is drawn, and no settling where there is none.
    Picture {
        script: "keep 3 4\ndo 0 mvreg:r write a\ngive 1 0 1\ndo 1 mvreg:r write b\ngive 2 1 1\nstop 2 0\nsettle\ngive 2 0 1\ngive 2 1 1\n",
        has: &[
            "class=\"e\">kept</text>",
            "class=\"p\">stop 0</text>",
            "class=\"p\">open 0</text>",
            "is stopped, and opened again",
            "class=\"r\">bad 2</text>",
        ],
        // What came early before the stop and was lost didn't wait.
        lacks: "#f0b850",
    },
    // A wait in a later epoch.
    Picture {
        script: LATER_WAIT,
        has: &["class=\"p\">epoch 2</text>", "#f0b850"],
        lacks: NOTHING,
    },
];

/// A message waits for another in an epoch, and one in a later epoch; the settling ends the first wait.
const LATER_WAIT: &str =
    "store 3 4\ndo 0 mvreg:r write a\ngive 1 0 1\ndo 1 mvreg:r write b\ngive 2 1 1\nsettle\nmembers 2\nmembers 3\ndo 1 mvreg:r write c\ngive 2 1 1\n";

#[test]
fn pictures_have_their_marks(rt: HostRuntime) -> Result<(), Fail> {
    for it in &PICTURES {
        let picture = drawn(rt.alloc(), it.script)?;
        for text in it.has {
            assert!(rt; picture.contains(*text), "{text} in {picture}");
        }
        assert!(rt; !picture.contains(it.lacks), "{picture}");
    }
    Ok(())
}

#[test]
fn a_wait_is_of_its_epoch(rt: HostRuntime) -> Result<(), Fail> {
    let picture = drawn(rt.alloc(), LATER_WAIT)?;
    assert_eq!(rt; picture.find("#f0b850"), picture.rfind("#f0b850"));
    assert!(rt; picture.find(">replica 2<") != picture.rfind(">replica 2<"));
    Ok(())
}

#[test]
fn a_long_run_says_that_it_goes_on(rt: HostRuntime) -> Result<(), Fail> {
    let alloc = rt.alloc();
    let mut script = "store 1 1\n".to_string(alloc)?;
    for _ in 0..MOST_MARKS {
        script.push_str("ask 0 counter:c\n")?;
    }
    let says = "The run goes on: only its first 500 marks are drawn.";
    assert!(rt; !drawn(alloc, &script)?.contains(says));
    script.push_str("ask 0 counter:c\n")?;
    assert!(rt; drawn(alloc, &script)?.contains(says));
    Ok(())
}

/// The table of a script.
fn tabled(alloc: Global, script: &str) -> Result<String, Fail> {
    match table(alloc, script.as_bytes()) {
        Ok(table) => Ok(table),
        Err(_) => Err("no table".into()),
    }
}

/// Scripts with their tables: the numbers after each line, and columns for the members of an epoch.
const TABLES: [(&str, &str); 2] = [
    (
        "store 2 4\n\n# a comment\ndo 0\tcounter:c inc 1\r\ngive 1 0 1\n",
        "\
line                                  reply                     seen 0     stable 0   seen 1     stable 1
do 0 counter:c inc 1                  ok 1                      1 0        0 0        0 0        0 0
give 1 0 1                            took 0:1                  1 0        0 0        1 0        1 0
",
    ),
    (
        "store 1 4\nmembers 2\n",
        "\
line                                  reply                     seen 0     stable 0
line                                  reply                     seen 0     stable 0   seen 1     stable 1
members 2                             epoch 1                   0 0        0 0        0 0        0 0
",
    ),
];

#[test]
fn a_table_has_the_numbers_after_each_line(rt: HostRuntime) -> Result<(), Fail> {
    for (script, wanted) in TABLES {
        assert_eq!(rt; tabled(rt.alloc(), script)?.as_str(), wanted);
    }
    Ok(())
}

#[test]
fn what_has_no_header_is_not_drawn(rt: HostRuntime) {
    let script = b"live 2 4 1 1 0\n";
    assert!(rt; matches!(picture(rt.alloc(), script), Err(DrawFault::BadHeader)));
    assert!(rt; matches!(table(rt.alloc(), script), Err(DrawFault::BadHeader)));
}

#[test]
fn what_cannot_be_shown_is_replaced(rt: HostRuntime) -> Result<(), Fail> {
    let mut out = String::new(rt.alloc());
    put_escaped("a\u{1b}\u{85}\u{ffff}é'", &mut out).map_err(|_| Fail::from("no memory"))?;
    assert_eq!(rt; out.as_str(), "a\u{fffd}\u{fffd}\u{fffd}é'");
    Ok(())
}
