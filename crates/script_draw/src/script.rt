//! A script's lines and its header.

ghost use Rattle.std.specs.Prelude.{◌≡◌, ◌↔◌, true, false, Some, Err, map, IfOk, OnOk, IsOk, IsErrOf};
ghost use Rattle.std.specs.List.{slice_split};
ghost use Rattle.script_lang.specs.Headers.{header_of};
ghost use Rattle.script_net.specs.Lines.{is_newline, lines_of, from_command};
ghost use Rattle.script_net.specs.Runs.{RunsIn};
ghost use Rattle.script_net.specs.Transcript.{AnyPlain, opened, text_of_line, world_of_line};
ghost use Rattle.script_draw.specs.Opening.{opens_script, has_header};
ghost use Rattle.script_draw.specs.Runs.{StandsBehind, without_newline};

use op_base::{NoMemory, Text};
use script_lang::{Header, Mode, is_passed_over, read_header};
use script_net::{Runner, without_return};
use std::alloc::{AllocError, Global};

/// Why there is no picture.
#[derive(Clone, Copy, Debug, PartialEq, Eq)]
pub enum DrawFault {
    /// The first command line is no header of a script, or there is none.
    BadHeader,
    /// There was no memory.
    NoMemory,
}

impl From<NoMemory> for DrawFault {
    ghost use Rattle.std.specs.Prelude.{◌≡◌};
    ghost use Rattle.script_draw.specs.declared.script.DrawFault.TheVariants as faults;

    ghost from_gives = { λ _ e. e ≡ faults.NoMemory };

    fn from(_fault: NoMemory) -> DrawFault {
        DrawFault::NoMemory
    }
}

impl From<AllocError> for DrawFault {
    ghost use Rattle.std.specs.Prelude.{◌≡◌};
    ghost use Rattle.script_draw.specs.declared.script.DrawFault.TheVariants as faults;

    ghost from_gives = { λ _ e. e ≡ faults.NoMemory };

    fn from(_fault: AllocError) -> DrawFault {
        DrawFault::NoMemory
    }
}

/// A script, opened at its header.
#[derive(Drop)]
pub struct Opened<'a> {
    pub n: u8,
    pub mode: Mode,
    pub runner: Runner,
    /// How many lines the header is behind, itself among them.
    pub passed: usize,
    /// The lines behind the header.
    pub lines: Vec<&'a [u8]>,
}

/// What stands between the newlines of a script.
fn parts_of(alloc: Global, script: &[u8]) -> Result<Vec<&[u8]>, NoMemory>
    ensures { IfOk result (λ parts. map (λ part. part.now) parts.items ≡ slice_split is_newline script.now) }
{
    Ok(script.split(|b| *b == b'\n').collect(alloc)?)
}

/// The lines of a script.
fn lines_of(alloc: Global, script: &[u8]) -> Result<Vec<&[u8]>, NoMemory>
    ensures { IfOk result (λ lines. map (λ line. line.now) lines.items ≡ lines_of script.now) }
{
    let parts = parts_of(alloc, script)?;
    let mut lines = Vec::new(alloc);
    for part in parts.iter() {
        lines.push(without_return(part))?;
    }
    Ok(lines)
}

/// The lines from the first command line on.
fn from_command<'a, 'b>(lines: &'b [&'a [u8]]) -> &'b [&'a [u8]]
    ensures { map (λ line. line.now) result.now ≡ from_command (map (λ line. line.now) lines.now) }
{
    let mut rest = lines;
    while let [line, after @ ..] = rest
        && is_passed_over(line)
    {
        rest = after;
    }
    rest
}

/// How the script of a header is run, and by how many members.
fn members_of(line: &[u8]) -> (Mode, u8) {
    match read_header(line) {
        Some(Header::Keep { n, .. }) => (Mode::Keep, n),
        Some(Header::Store { n, .. } | Header::Live { n, .. }) => (Mode::Store, n),
        None => (Mode::Store, 1),
    }
}

/// The run that a header opens.
fn run_of(alloc: Global, line: &[u8]) -> Result<Runner, DrawFault>
    ensures bad_header { IsErrOf result DrawFault.BadHeader ↔ (opens_script (header_of line.now) ≡ false) }
    ensures opens { IfOk result (λ runner. (plain : AnyPlain) × (opened (header_of line.now) ≡ Some plain) × RunsIn runner plain) }
{
    match Runner::open(alloc, line) {
        Ok(Some(runner)) => Ok(runner),
        Ok(None) => Err(DrawFault::BadHeader),
        Err(NoMemory) => Err(DrawFault::NoMemory),
    }
}

/// Opens a script at its header: what is run then is the lines behind it, in the plain world that it opens.
pub fn open(alloc: Global, script: &[u8]) -> Result<Opened<'_>, DrawFault>
    ensures stands { IfOk result (λ run. StandsBehind (from_command (lines_of script.now)) run.runner (map (λ line. line.now) run.lines.items)) }
    ensures headless { result ≡ Err DrawFault.BadHeader → has_header script.now ≡ false }
    ensures opens { IsOk result → has_header script.now ≡ true }
{
    let lines = lines_of(alloc, script)?;
    let command_lines = from_command(&lines);
    let [header, rest @ ..] = command_lines else {
        return Err(DrawFault::BadHeader);
    };
    let runner = run_of(alloc, header)?;
    let (mode, n) = members_of(header);
    Ok(Opened {
        n,
        mode,
        runner,
        passed: lines.len().saturating_sub(rest.len()),
        lines: rest.to_vec(alloc)?,
    })
}

/// Runs a line. Its reply, without its newline; nothing where the line is passed over.
pub fn reply_to(alloc: Global, runner: &mut Runner, line: &[u8]) -> Result<Vec<u8>, NoMemory>
    ensures reply { (plain : AnyPlain) → RunsIn runner.old plain → IfOk result (λ reply. reply.items ≡ without_newline (text_of_line plain line.now)) }
    ensures world { (plain : AnyPlain) → RunsIn runner.old plain → OnOk result (RunsIn runner.new (world_of_line plain line.now)) }
{
    let mut text = Text::new(alloc);
    runner.line(alloc, line, &mut text)?;
    let mut reply = text.into_vec();
    let _newline = reply.pop();
    Ok(reply)
}
