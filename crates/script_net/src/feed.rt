//! A script whose bytes come in pieces: the line that has come in part, and the run of the lines that have ended; and the
//! transcript of a script that is there.

ghost use Rattle.std.specs.Prelude.{◌≡◌, ◌⊎◌, ◌++◌, ◌∷◌, [], List, ℕ, Some, None, true, false, IfOk, IfErr, OnOk, OnErr};
ghost use Rattle.std.specs.Str.Lines.{strip_carriage_return};
ghost use Rattle.script_lang.specs.Headers.{header_of};
ghost use Rattle.script_net.specs.Feeding.{StandsAt, IsOver, is_opening};
ghost use Rattle.script_net.specs.Lines.{from_command};
ghost use Rattle.script_net.specs.Runs.{RunsIn};
ghost use Rattle.script_net.specs.Transcript.{AnyPlain, opened, is_no_script, lacks_header, transcript_of, transcript};

use crate::line::{split_line, without_return};
use crate::runner::Runner;
use op_base::{ByteList, NoMemory, Text};
use script_lang::is_passed_over;
use std::alloc::Global;

/// Why a line wasn't taken.
#[derive(Clone, Copy, Debug, PartialEq, Eq)]
pub enum Stop {
    /// It is the first command line, and no header of the mode.
    BadHeader,
    /// There was no memory.
    NoMemory,
}

/// Where a script stands after the lines that have ended.
#[derive(Drop)]
pub enum Stage {
    /// Before its header: no command line has come.
    Opening,
    /// Behind its header.
    Running(Runner),
}

/// The run that a header opens.
fn open(alloc: Global, line: &[u8]) -> Result<Runner, Stop>
    ensures opens { IfOk result (λ runner. (plain : AnyPlain) × (opened (header_of line.now) ≡ Some plain) × RunsIn runner plain) }
    ensures refuses { IfErr result (λ stop. stop ≡ Stop.BadHeader → opened (header_of line.now) ≡ None) }
{
    match Runner::open(alloc, line) {
        Ok(Some(runner)) => Ok(runner),
        Ok(None) => Err(Stop::BadHeader),
        Err(NoMemory) => Err(Stop::NoMemory),
    }
}

impl Stage {
    /// Takes a line of a script whose header hasn't come: opens the run, or passes over what is no command line. On an error
    /// the script stands where it stood. It stands apart, since the place of a run would be cleared for each later line too.
    #[cold]
    #[inline(never)]
    fn begin(&mut self, alloc: Global, line: &[u8]) -> Result<(), Stop>
        requires opening { self.old ≡ Stage.Opening }
        ensures stands { (done : List (List ℕ)) → StandsAt self.old done → OnOk result (StandsAt self.new (done ++ line.now ∷ [])) }
        ensures text { (done : List (List ℕ)) (text : List ℕ) → StandsAt self.old done → text ≡ transcript_of done
            → OnOk result (text ≡ transcript_of (done ++ line.now ∷ [])) }
        ensures bad_header { (done : List (List ℕ)) → StandsAt self.old done
            → IfErr result (λ stop. stop ≡ Stop.BadHeader → lacks_header is_no_script false (from_command (done ++ line.now ∷ [])) ≡ true) }
        ensures err { OnErr result (self.new ≡ self.old) }
    {
        if is_passed_over(line) {
            return Ok(());
        }
        match open(alloc, line) {
            Ok(runner) => {
                *self = Stage::Running(runner);
                Ok(())
            }
            Err(stop) => Err(stop),
        }
    }

    /// Runs a line, and puts its reply at the end of a text. On an error the text is as before, and the script stands where
    /// it stood, or its run has ended.
    fn run_line(&mut self, alloc: Global, line: &[u8], out: &mut Text) -> Result<(), Stop>
        ensures stands { (done : List (List ℕ)) → StandsAt self.old done → OnOk result (StandsAt self.new (done ++ line.now ∷ [])) }
        ensures text { (done : List (List ℕ)) (written : List ℕ) → StandsAt self.old done → written ++ out.old ≡ transcript_of done
            → OnOk result (written ++ out.new ≡ transcript_of (done ++ line.now ∷ [])) }
        ensures bad_header { (done : List (List ℕ)) → StandsAt self.old done
            → IfErr result (λ stop. stop ≡ Stop.BadHeader → lacks_header is_no_script false (from_command (done ++ line.now ∷ [])) ≡ true) }
        ensures err { OnErr result (out.new ≡ out.old) }
        ensures over { OnErr result ((self.new ≡ self.old) ⊎ IsOver self.new) }
    {
        match self {
            Stage::Opening => self.begin(alloc, line),
            Stage::Running(runner) => match runner.line(alloc, line, out) {
                Ok(()) => Ok(()),
                Err(NoMemory) => Err(Stop::NoMemory),
            },
        }
    }
}

/// A script that comes in pieces, wherever its bytes are parted.
#[derive(Drop)]
pub struct Feed {
    /// What has come of the next line, without a newline.
    pub part: ByteList,
    /// Where the script stands after the lines before it.
    pub stage: Stage,
}

impl Feed {
    /// A script of which nothing has come.
    pub fn new(alloc: Global) -> Feed
        ensures part { result.part ≡ [] }
        ensures stage { result.stage ≡ Stage.Opening }
    {
        Feed {
            part: ByteList::new(alloc),
            stage: Stage::Opening,
        }
    }

    /// Whether no command line has come.
    pub fn is_opening(&self) -> bool
        ensures { result ≡ is_opening self.now.stage }
    {
        matches!(self.stage, Stage::Opening)
    }

    /// Runs the line of which these are the last bytes, behind the part of it that has come, and puts its reply at the
    /// end of a text. On an error the text is as before, and the line may be lost; the script stands where it stood, or its
    /// run has ended, and then each later line answers `NoMemory`.
    pub fn end_line(&mut self, alloc: Global, bytes: &[u8], out: &mut Text) -> Result<(), Stop>
        ensures part { OnOk result (self.new.part ≡ []) }
        ensures stands { (done : List (List ℕ)) → StandsAt self.old.stage done
            → OnOk result (StandsAt self.new.stage (done ++ strip_carriage_return (self.old.part ++ bytes.now) ∷ [])) }
        ensures text { (done : List (List ℕ)) (written : List ℕ) → StandsAt self.old.stage done → written ++ out.old ≡ transcript_of done
            → OnOk result (written ++ out.new ≡ transcript_of (done ++ strip_carriage_return (self.old.part ++ bytes.now) ∷ [])) }
        ensures bad_header { (done : List (List ℕ)) → StandsAt self.old.stage done
            → IfErr result (λ stop. stop ≡ Stop.BadHeader → lacks_header is_no_script false (from_command (done ++ strip_carriage_return (self.old.part ++ bytes.now) ∷ [])) ≡ true) }
        ensures err { OnErr result (out.new ≡ out.old) }
        ensures over { OnErr result ((self.new.stage ≡ self.old.stage) ⊎ IsOver self.new.stage) }
    {
        if self.part.is_empty() {
            return self.stage.run_line(alloc, without_return(bytes), out);
        }
        if self.part.extend_from_slice(bytes).is_err() {
            return Err(Stop::NoMemory);
        }
        let ran = self
            .stage
            .run_line(alloc, without_return(self.part.as_slice()), out);
        self.part.truncate(0);
        ran
    }

    /// Keeps bytes without a newline, behind the part that has come. After `NoMemory` the feed is as before.
    pub fn keep(&mut self, bytes: &[u8]) -> Result<(), NoMemory>
        ensures part { OnOk result (self.new.part ≡ self.old.part ++ bytes.now) }
        ensures stage { self.new.stage ≡ self.old.stage }
        ensures err { OnErr result (self.new.part ≡ self.old.part) }
    {
        self.part.extend_from_slice(bytes)
    }
}

/// The transcript of a whole script: the lines of the replies to those behind its header. One without a header has none.
pub fn transcript(alloc: Global, script: &[u8]) -> Result<Text, NoMemory>
    ensures { IfOk result (λ text. text ≡ transcript script.now) }
{
    let mut feed = Feed::new(alloc);
    let mut out = Text::new(alloc);
    let mut rest = script;
    'lines: while let Some((line, after)) = split_line(rest) {
        match feed.end_line(alloc, line, &mut out) {
            Ok(()) => rest = after,
            Err(Stop::BadHeader) => return Ok(out),
            Err(Stop::NoMemory) => return Err(NoMemory),
        }
    }
    match feed.end_line(alloc, rest, &mut out) {
        Ok(()) => Ok(out),
        Err(Stop::BadHeader) => Ok(out),
        Err(Stop::NoMemory) => Err(NoMemory),
    }
}
