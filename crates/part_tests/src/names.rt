//! What faults of names are printed as, and that what no script calls answers where there is memory.

use op_base::{Act, Entry, NameFault, NoMemory, ObjectId, Tag, Update};
use std::alloc::Global;
use std::test::Fail;

/// Whether a fault is printed as a text.
fn is_told(alloc: Global, fault: NameFault, text: &str) -> Result<bool, Fail> {
    Ok(format!(in alloc; "{fault}")?.as_str() == text)
}

#[test]
fn faults_are_told(rt: HostRuntime) -> Result<(), Fail> {
    let alloc = rt.alloc();
    for (fault, text) in [
        (NameFault::Empty, "no byte"),
        (NameFault::TooLong, "too many bytes"),
        (
            NameFault::BadByte { at: 12 },
            "a byte at place 12 that may not stand there",
        ),
        (NameFault::NoType, "no kind before the first colon"),
        (NameFault::NotUtf8, "no UTF-8"),
        (NameFault::NoMemory, "out of memory"),
    ] {
        assert!(rt; is_told(alloc, fault, text)?, "{text}");
    }
    assert_eq!(rt;
        format!(in alloc; "{}", NoMemory)?.as_str(),
        "out of memory"
    );
    Ok(())
}

/// An entry of a counter.
fn entry(alloc: Global) -> Result<Entry, Fail> {
    let object = ObjectId::read(alloc, b"counter:a")?;
    Ok(Entry {
        origin: 1,
        tag: Tag::zero(2),
        update: Update::new(object, Act::Inc(5))?,
    })
}

#[test]
fn an_entry_is_copied_where_there_is_memory(rt: HostRuntime) -> Result<(), Fail> {
    let alloc = rt.alloc();
    let entry = entry(alloc)?;
    assert!(rt; entry.copy(alloc)? == entry);
    Ok(())
}
