//! Whole scripts: each line's reply, as worked by hand.

use crate::changes::CHANGES;
use crate::lists::{KEPT_LISTS, LISTS};
use crate::scripts::{SCRIPTS, Script};
use crate::stops::STOPS;
use op_base::{NoMemory, Text};
use script_net::transcript;
use std::alloc::Global;
use std::test::Fail;

/// Puts a line at the end of a text.
fn put_line(line: &str, text: &mut Text) -> Result<(), NoMemory> {
    text.extend_from_slice(line.as_bytes())?;
    text.push(b'\n')
}

/// Whether the transcript of a script is the replies beside its lines.
fn is_replied_to(alloc: Global, script: &Script) -> Result<bool, NoMemory> {
    let mut lines = Text::new(alloc);
    let mut replies = Text::new(alloc);
    put_line(script.header, &mut lines)?;
    for (line, reply) in script.rows {
        put_line(line, &mut lines)?;
        put_line(reply, &mut replies)?;
    }
    Ok(transcript(alloc, lines.as_slice())? == replies)
}

/// The place of the first script that has another transcript than the replies beside its lines.
fn first_wrong(alloc: Global, scripts: &[Script]) -> Result<Option<usize>, NoMemory> {
    for (at, script) in scripts.iter().enumerate() {
        if !is_replied_to(alloc, script)? {
            return Ok(Some(at));
        }
    }
    Ok(None)
}

#[test]
fn each_line_has_its_reply(rt: HostRuntime) -> Result<(), Fail> {
    assert_eq!(rt; first_wrong(rt.alloc(), &SCRIPTS)?, None);
    Ok(())
}

#[test]
fn members_change(rt: HostRuntime) -> Result<(), Fail> {
    assert_eq!(rt; first_wrong(rt.alloc(), &CHANGES)?, None);
    Ok(())
}

#[test]
fn durable_replicas_are_stopped(rt: HostRuntime) -> Result<(), Fail> {
    assert_eq!(rt; first_wrong(rt.alloc(), &STOPS)?, None);
    Ok(())
}

#[test]
fn lists_have_their_order(rt: HostRuntime) -> Result<(), Fail> {
    assert_eq!(rt; first_wrong(rt.alloc(), &LISTS)?, None);
    assert_eq!(rt; first_wrong(rt.alloc(), &KEPT_LISTS)?, None);
    Ok(())
}
