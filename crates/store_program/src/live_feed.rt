//! A live input whose bytes come in pieces: the line that has come in part, and what the lines before it ask for.

ghost use Rattle.std.specs.Prelude.{◌≡◌, ◌++◌, ◌∷◌, [], ◌+◌, ◌<◌, ◌^◌, List, ℕ, Some, true, false, length, All, IsTrue, IfOk, IfErr, OnOk, MatchOption};
ghost use Rattle.std.specs.Str.Lines.{strip_carriage_return};
ghost use Rattle.script_lang.specs.Headers.{header_of, is_in_range};
ghost use Rattle.script_lang.specs.LiveCommands.{live_line_of};
ghost use Rattle.script_lang.specs.Ranges.{LiveLineIsWithin};
ghost use Rattle.script_net.specs.Lines.{from_command};
ghost use Rattle.script_net.specs.Transcript.{lacks_header};
ghost use Rattle.store_program.specs.Run.{is_no_live};
ghost use Rattle.store_program.specs.Live.{numbered};
ghost use Rattle.store_program.specs.LiveFeeding.{LiveStandsAt, IsAsked};

use live_run::NumberedLine;
use op_base::{ByteList, NoMemory};
use script_lang::{Header, LiveLine, is_passed_over, read_header, read_live_line};
use script_net::{Stop, without_return};
use std::alloc::Global;

/// What a live input asks for: a store of `n` members with a window of `w`, so many clients and turns, a loss, and the
/// lines behind the header that aren't passed over.
#[derive(Drop)]
pub struct LiveInput {
    pub n: u8,
    pub w: u8,
    pub clients: u8,
    pub turns: u32,
    pub loss: u32,
    pub lines: Vec<NumberedLine>,
}

/// The live input that a header opens.
fn open(alloc: Global, line: &[u8]) -> Result<LiveInput, Stop>
    ensures opens { IfOk result (λ input. header_of line.now ≡ Some (Header.Live input.n input.w input.clients input.turns input.loss)) }
    ensures in_range { IfOk result (λ input. IsTrue (is_in_range (Header.Live input.n input.w input.clients input.turns input.loss))) }
    ensures empty { IfOk result (λ input. input.lines.items ≡ []) }
    ensures refuses { IfErr result (λ stop. stop ≡ Stop.BadHeader → is_no_live (header_of line.now) ≡ true) }
{
    let Some(
        Header::Live {
            n,
            w,
            clients,
            turns,
            loss,
        },
    ) = read_header(line)
    else {
        return Err(Stop::BadHeader);
    };
    Ok(LiveInput {
        n,
        w,
        clients,
        turns,
        loss,
        lines: Vec::new(alloc),
    })
}

/// Reads a line of this number behind a header, and puts it at the end where it isn't passed over.
fn push_line(
    alloc: Global,
    n: u8,
    clients: u8,
    number: u32,
    line: &[u8],
    lines: &mut Vec<NumberedLine>,
) -> Result<(), Stop>
    ensures lines { OnOk result (lines.new.items ≡ lines.old.items ++ numbered number (live_line_of n clients line.now)) }
    ensures within { All (λ l. LiveLineIsWithin n clients l.line) lines.old.items → OnOk result (All (λ l. LiveLineIsWithin n clients l.line) lines.new.items) }
    ensures err { IfErr result (λ stop. stop ≡ Stop.NoMemory) }
{
    match read_live_line(alloc, line, n, clients) {
        LiveLine::Skip => Ok(()),
        LiveLine::NoMemory => Err(Stop::NoMemory),
        line => match lines.push(NumberedLine { number, line }) {
            Ok(()) => Ok(()),
            Err(_) => Err(Stop::NoMemory),
        },
    }
}

/// Where a live input stands.
#[derive(Drop)]
pub enum LiveStage {
    /// Before its header: no command line has come.
    Opening,
    /// Behind its header.
    Behind(LiveInput),
}

impl LiveStage {
    /// Takes the line of this number.
    fn take_line(&mut self, alloc: Global, number: u32, line: &[u8]) -> Result<(), Stop>
        ensures stands { (done : List (List ℕ)) → LiveStandsAt self.old done → number ≡ length done + 1
            → OnOk result (LiveStandsAt self.new (done ++ line.now ∷ [])) }
        ensures bad_header { (done : List (List ℕ)) → LiveStandsAt self.old done
            → IfErr result (λ stop. stop ≡ Stop.BadHeader → lacks_header is_no_live false (from_command (done ++ line.now ∷ [])) ≡ true) }
    {
        match self {
            LiveStage::Opening if is_passed_over(line) => Ok(()),
            LiveStage::Opening => match open(alloc, line) {
                Ok(input) => {
                    *self = LiveStage::Behind(input);
                    Ok(())
                }
                Err(stop) => Err(stop),
            },
            LiveStage::Behind(input) => push_line(
                alloc,
                input.n,
                input.clients,
                number,
                line,
                &mut input.lines,
            ),
        }
    }
}

/// A live input that comes in pieces: how many of its lines have ended, and the part of the next that has come.
#[derive(Drop)]
pub struct LiveFeed {
    part: ByteList,
    count: u32,
    stage: LiveStage,
}

impl LiveFeed {
    /// A live input of which nothing has come.
    pub fn new(alloc: Global) -> LiveFeed
        ensures part { result.part ≡ [] }
        ensures count { result.count ≡ 0 }
        ensures stage { result.stage ≡ LiveStage.Opening }
    {
        LiveFeed {
            part: ByteList::new(alloc),
            count: 0,
            stage: LiveStage::Opening,
        }
    }

    /// Takes the line of which these are the last bytes, behind the part of it that has come.
    pub fn end_line(&mut self, alloc: Global, bytes: &[u8]) -> Result<(), Stop>
        requires few { self.old.count + 1 < 2 ^ 32 }
        ensures part { OnOk result (self.new.part ≡ []) }
        ensures count { self.new.count ≡ self.old.count + 1 }
        ensures stands { (done : List (List ℕ)) → LiveStandsAt self.old.stage done → self.old.count ≡ length done
            → OnOk result (LiveStandsAt self.new.stage (done ++ strip_carriage_return (self.old.part ++ bytes.now) ∷ [])) }
        ensures bad_header { (done : List (List ℕ)) → LiveStandsAt self.old.stage done
            → IfErr result (λ stop. stop ≡ Stop.BadHeader → lacks_header is_no_live false (from_command (done ++ strip_carriage_return (self.old.part ++ bytes.now) ∷ [])) ≡ true) }
    {
        self.count += 1;
        if self.part.is_empty() {
            return self
                .stage
                .take_line(alloc, self.count, without_return(bytes));
        }
        if self.part.extend_from_slice(bytes).is_err() {
            return Err(Stop::NoMemory);
        }
        let taken = self
            .stage
            .take_line(alloc, self.count, without_return(self.part.as_slice()));
        self.part.truncate(0);
        taken
    }

    /// Keeps bytes without a newline, behind the part that has come.
    pub fn keep(&mut self, bytes: &[u8]) -> Result<(), NoMemory>
        ensures part { OnOk result (self.new.part ≡ self.old.part ++ bytes.now) }
        ensures count { self.new.count ≡ self.old.count }
        ensures stage { self.new.stage ≡ self.old.stage }
    {
        self.part.extend_from_slice(bytes)
    }

    /// What the lines that have ended ask for, where a header was among them.
    pub fn into_input(self) -> Option<LiveInput>
        ensures { (done : List (List ℕ)) → LiveStandsAt self.stage done → MatchOption result (from_command done ≡ []) (λ input. IsAsked input done) }
    {
        let LiveFeed { stage, .. } = self;
        match stage {
            LiveStage::Opening => None,
            LiveStage::Behind(input) => Some(input),
        }
    }
}
