//! Runs over memory: what the words ask for is written, and each fault has its status.

use crate::run::{MOST_INPUT, Status, run};
use std::alloc::Global;
use std::test::Fail;
use store_io::{MemorySink, MemorySource};

/// A script of one question.
const SCRIPT: &str = "store 1 1\nask 0 counter:c\n";

/// How a run ends, and what it writes: of words, an input, and the calls of the source and of the sink that fail.
fn runs(
    alloc: Global,
    words: &[&str],
    input: &str,
    failing_reads: &[u32],
    failing_writes: &[u32],
) -> Result<(Status, Vec<u8>), Fail> {
    let mut given = Vec::new(alloc);
    given.push("draw_program".to_string(alloc)?)?;
    for word in words {
        given.push(word.to_string(alloc)?)?;
    }
    let bytes = input.as_bytes().to_vec(alloc)?;
    let mut source = MemorySource::new(bytes, 7, failing_reads.to_vec(alloc)?);
    let mut sink = MemorySink::create(alloc, 100_000, 50, failing_writes.to_vec(alloc)?)?;
    let status = run(alloc, &given, &mut source, &mut sink);
    Ok((status, sink.bytes().to_vec(alloc)?))
}

#[test]
fn words_ask_for_a_picture_or_a_table(rt: HostRuntime) -> Result<(), Fail> {
    let (status, text) = runs(rt.alloc(), &[], SCRIPT, &[], &[])?;
    assert_eq!(rt; status, Status::Fine);
    assert!(rt; text.starts_with(b"<svg ") && text.ends_with(b"</svg>\n"));
    let (status, text) = runs(rt.alloc(), &["--table"], SCRIPT, &[], &[])?;
    assert_eq!(rt; status, Status::Fine);
    assert!(rt; text.starts_with(b"line "));
    let (status, text) = runs(rt.alloc(), &["--tables"], SCRIPT, &[], &[])?;
    assert_eq!(rt; status, Status::BadWords);
    assert!(rt; text.is_empty());
    Ok(())
}

#[test]
fn faults_have_their_statuses(rt: HostRuntime) -> Result<(), Fail> {
    let (status, text) = runs(rt.alloc(), &[], "ask 0 counter:c\n", &[], &[])?;
    assert_eq!(rt; status, Status::BadHeader);
    assert!(rt; text.is_empty());
    let (status, text) = runs(rt.alloc(), &[], SCRIPT, &[2], &[])?;
    assert_eq!(rt; status, Status::ReadFault);
    assert!(rt; text.is_empty());
    let (status, text) = runs(rt.alloc(), &[], SCRIPT, &[], &[2])?;
    assert_eq!(rt; status, Status::WriteFault);
    assert_eq!(rt; text.len(), 50);
    Ok(())
}

#[test]
fn an_input_has_at_most_4194304_bytes(rt: HostRuntime) -> Result<(), Fail> {
    let alloc = rt.alloc();
    let mut given = Vec::new(alloc);
    given.push("draw_program".to_string(alloc)?)?;
    let mut bytes = SCRIPT.as_bytes().to_vec(alloc)?;
    bytes.resize(MOST_INPUT + 1, b'#')?;
    let mut source = MemorySource::new(bytes, 100_000, Vec::new(alloc));
    let mut sink = MemorySink::create(alloc, 100_000, 100_000, Vec::new(alloc))?;
    assert_eq!(rt; run(alloc, &given, &mut source, &mut sink), Status::TooLong);
    Ok(())
}
