//! A script's run as a table.

ghost use Rattle.std.specs.Prelude.{◌≡◌, ◌≤◌, true, false, Err, IsOk};
ghost use Rattle.script_draw.specs.Opening.{has_header};

use crate::label::cut;
use crate::replies::{first_word, members_by};
use crate::script::{DrawFault, Opened, open, reply_to};
use op_base::NoMemory;
use script_lang::{is_passed_over, split};
use script_net::Runner;
use std::alloc::Global;
use unicode_width::UnicodeWidthStr;

/// A table has at most so many rows.
pub const MOST_ROWS: usize = 2000;

/// How wide the lines and the replies are.
const LINE_WIDTH: usize = 36;

const REPLY_WIDTH: usize = 24;

/// The table of a script's run: each line, its reply, and what each replica then has seen and knows to be everywhere, a
/// number a member. It has at most 2000 rows. Where there are more, it says so. `BadHeader` comes exactly where the first
/// command line is no header of a script, or there is none, unless there is no memory.
pub fn table(alloc: Global, script: &[u8]) -> Result<String, DrawFault>
    ensures headless { result ≡ Err DrawFault.BadHeader → has_header script.now ≡ false }
    ensures opens { IsOk result → has_header script.now ≡ true }
{
    let Opened {
        mut n,
        mode: _,
        mut runner,
        passed: _,
        lines,
    } = open(alloc, script)?;
    let mut out = String::new(alloc);
    put_head(alloc, n, &mut out)?;
    let mut rows = 0usize;
    for line in lines.iter() {
        if is_passed_over(line) {
            continue;
        }
        if rows >= MOST_ROWS {
            write!(
                &mut out,
                "The run goes on: only its first {MOST_ROWS} lines are shown.\n"
            )?;
            break;
        }
        rows += 1;
        let reply = reply_to(alloc, &mut runner, line)?;
        if let Some(members) = members_by(split(line).as_slice(), &reply) {
            n = members;
            put_head(alloc, n, &mut out)?;
        }
        put_row(alloc, &mut runner, n, line, &reply, &mut out)?;
    }
    Ok(out)
}

/// How wide the numbers of a replica are, where others follow.
fn width_of(n: u8) -> usize {
    (usize::from(n) * 3).max(9)
}

/// Puts the heads of the columns.
fn put_head(alloc: Global, n: u8, out: &mut String) -> Result<(), NoMemory> {
    put_padded("line", LINE_WIDTH, out)?;
    put_padded("reply", REPLY_WIDTH, out)?;
    for r in 0..n {
        let seen = format!(in alloc; "seen {r}")?;
        put_padded(&seen, width_of(n), out)?;
        let stable = format!(in alloc; "stable {r}")?;
        put_last(&stable, r, n, out)?;
    }
    out.push('\n')?;
    Ok(())
}

/// Puts blanks.
fn put_blanks(count: usize, out: &mut String) -> Result<(), NoMemory> {
    for _ in 0..count {
        out.push(' ')?;
    }
    Ok(())
}

/// Puts a text in a column of a width, and two blanks behind it.
fn put_padded(text: &str, width: usize, out: &mut String) -> Result<(), NoMemory> {
    out.push_str(text)?;
    let rest = width.saturating_sub(text.width());
    put_blanks(rest.saturating_add(2), out)
}

/// Puts the last text of a replica: in a column, where another replica follows.
fn put_last(text: &str, r: u8, n: u8, out: &mut String) -> Result<(), NoMemory>
    requires { r ≤ n }
{
    if n - r > 1 {
        return put_padded(text, width_of(n), out);
    }
    out.push_str(text)?;
    Ok(())
}

/// Puts the row of a line that was run, with what each replica answers behind it.
fn put_row(
    alloc: Global,
    runner: &mut Runner,
    n: u8,
    line: &[u8],
    reply: &[u8],
    out: &mut String,
) -> Result<(), NoMemory> {
    let shown = shown_line(alloc, line)?;
    put_cell(alloc, &shown, LINE_WIDTH, out)?;
    put_cell(alloc, reply, REPLY_WIDTH, out)?;
    for r in 0..n {
        let seen = numbers_of(alloc, runner, "seen", r)?;
        put_padded(&seen, width_of(n), out)?;
        let stable = numbers_of(alloc, runner, "stable", r)?;
        put_last(&stable, r, n, out)?;
    }
    out.push('\n')?;
    Ok(())
}

/// A line's words with a space between them.
fn shown_line(alloc: Global, line: &[u8]) -> Result<Vec<u8>, NoMemory> {
    let words = split(line);
    let mut shown = Vec::new(alloc);
    for word in words.as_slice() {
        if !shown.is_empty() {
            shown.push(b' ')?;
        }
        shown.extend_from_slice(word)?;
    }
    Ok(shown)
}

/// Puts a text in a column of a width, cut where it is longer.
fn put_cell(alloc: Global, text: &[u8], width: usize, out: &mut String) -> Result<(), NoMemory>
    requires { 1 ≤ width }
{
    let text = String::from_utf8_lossy(alloc, text)?;
    let text = cut(alloc, text.as_str(), width - 1)?;
    put_padded(text.as_str(), width, out)
}

/// The numbers that a replica answers to a question, as they are written.
fn numbers_of(
    alloc: Global,
    runner: &mut Runner,
    question: &str,
    r: u8,
) -> Result<String, NoMemory> {
    let asked = format!(in alloc; "{question} {r}")?;
    let reply = reply_to(alloc, runner, asked.as_bytes())?;
    let (_, numbers) = first_word(&reply);
    Ok(String::from_utf8_lossy(alloc, numbers)?)
}
