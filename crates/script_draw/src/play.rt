//! A script's run, noted as the marks of a picture.

ghost use Rattle.std.specs.Prelude.{◌≡◌, true, false, Err, IsOk};
ghost use Rattle.script_draw.specs.Opening.{has_header};

use crate::event::{Event, Labels, Mark, Spot};
use crate::label::{label_of, label_of_words};
use crate::plan::Plan;
use crate::replies::{Told, first_word, is_word, members_by, numbers_in, read_step};
use crate::script::{DrawFault, Opened, open, reply_to};
use op_base::{MessageId, NoMemory};
use script_lang::{Mode, is_passed_over, read_number, split};
use script_net::Runner;
use std::alloc::Global;

/// Settling is drawn for at most so many rounds. It has few.
const MOST_ROUNDS: u32 = 1000;

/// The marks of a script's run.
pub fn play(alloc: Global, script: &[u8]) -> Result<Plan, DrawFault>
    ensures headless { result ≡ Err DrawFault.BadHeader → has_header script.now ≡ false }
    ensures opens { IsOk result → has_header script.now ≡ true }
{
    let Opened {
        n,
        mode,
        mut runner,
        passed,
        lines,
    } = open(alloc, script)?;
    let mut plan = Plan::new(alloc, n)?;
    let mut number = passed;
    for line in lines.iter() {
        number = number.saturating_add(1);
        if !is_passed_over(line) {
            play_line(alloc, mode, &mut runner, line, number, &mut plan)?;
        }
        if plan.is_cut {
            break;
        }
    }
    Ok(plan)
}

/// Runs a line and notes its marks.
fn play_line(
    alloc: Global,
    mode: Mode,
    runner: &mut Runner,
    line: &[u8],
    number: usize,
    plan: &mut Plan,
) -> Result<(), NoMemory> {
    let words = split(line);
    let words = words.as_slice();
    if mode == Mode::Store
        && let [b"settle"] = words
    {
        return play_settling(alloc, runner, line, number, plan);
    }
    let reply = reply_to(alloc, runner, line)?;
    let (first, rest) = first_word(&reply);
    if is_word(first, b"bad") && !rest.starts_with(b"frame") {
        return plan.add_line(number, labels_of(alloc, b"", &reply)?);
    }
    if let [b"members", ..] = words {
        return note_members(alloc, words, &reply, number, plan);
    }
    let before = plan.events.len();
    note_reply(alloc, words, &reply, plan)?;
    plan.add_number(number, before)?;
    match words {
        [_, r, ..] => note_level(alloc, runner, replica_of(r), plan),
        _ => Ok(()),
    }
}

/// Notes that an epoch begins by a change of members, or that none does.
fn note_members(
    alloc: Global,
    words: &[&[u8]],
    reply: &[u8],
    number: usize,
    plan: &mut Plan,
) -> Result<(), NoMemory> {
    let labels = Labels {
        upper: label_of_words(alloc, words)?,
        lower: label_of(alloc, reply)?,
    };
    match members_by(words, reply) {
        Some(n) => plan.begin_epoch(number, labels, n),
        None => plan.add_line(number, labels),
    }
}

/// The replica that a word names.
fn replica_of(word: &[u8]) -> u8 {
    (read_number(word).unwrap_or(0) % 16) as u8
}

/// Two labels.
fn labels_of(alloc: Global, upper: &[u8], lower: &[u8]) -> Result<Labels, NoMemory> {
    Ok(Labels {
        upper: label_of(alloc, upper)?,
        lower: label_of(alloc, lower)?,
    })
}

/// Notes what a replica delivered and knows to be everywhere.
fn note_level(alloc: Global, runner: &mut Runner, r: u8, plan: &mut Plan) -> Result<(), NoMemory> {
    let asked = format!(in alloc; "seen {r}")?;
    let seen = reply_to(alloc, runner, asked.as_bytes())?;
    let asked = format!(in alloc; "stable {r}")?;
    let stable = reply_to(alloc, runner, asked.as_bytes())?;
    plan.note_level(r, &numbers_in(alloc, &seen)?, &numbers_in(alloc, &stable)?)
}

/// Runs the rounds of settling by their lines and notes their marks, and then runs the line itself.
fn play_settling(
    alloc: Global,
    runner: &mut Runner,
    line: &[u8],
    number: usize,
    plan: &mut Plan,
) -> Result<(), NoMemory> {
    plan.add_heading(Some(number), labels_of(alloc, b"settle", b"")?)?;
    plan.begin_settling();
    for _ in 0..MOST_ROUNDS {
        if plan.is_cut || !play_round(alloc, runner, plan)? {
            break;
        }
    }
    plan.end_settling();
    if plan.is_cut {
        return Ok(());
    }
    let reply = reply_to(alloc, runner, line)?;
    plan.add_heading(None, labels_of(alloc, b"", &reply)?)
}

/// Runs a round: each replica is offered what each other would resend, and then each makes a beat. Whether one moved.
fn play_round(alloc: Global, runner: &mut Runner, plan: &mut Plan) -> Result<bool, NoMemory> {
    let mut moved = false;
    for r in 0..plan.n {
        moved |= play_offers(alloc, runner, r, plan)?;
    }
    for r in 0..plan.n {
        let line = format!(in alloc; "beat {r}")?;
        moved |= play_step(alloc, runner, line.as_str(), r, plan)?;
    }
    Ok(moved)
}

/// Offers to a replica what each other would resend. Whether a message was delivered.
fn play_offers(
    alloc: Global,
    runner: &mut Runner,
    r: u8,
    plan: &mut Plan,
) -> Result<bool, NoMemory> {
    let mut moved = false;
    for k in 0..plan.n {
        if k != r {
            let line = format!(in alloc; "resend {r} {k}")?;
            moved |= play_step(alloc, runner, line.as_str(), r, plan)?;
        }
    }
    Ok(moved)
}

/// Runs a line of settling, and notes what was delivered or sent. Whether anything was.
fn play_step(
    alloc: Global,
    runner: &mut Runner,
    line: &str,
    r: u8,
    plan: &mut Plan,
) -> Result<bool, NoMemory> {
    if plan.is_cut {
        return Ok(false);
    }
    let words = split(line.as_bytes());
    let reply = reply_to(alloc, runner, line.as_bytes())?;
    let (first, rest) = first_word(&reply);
    let is_sent = is_word(first, b"ok");
    if !is_sent && !is_word(first, b"took") {
        return Ok(false);
    }
    note_reply(alloc, words.as_slice(), &reply, plan)?;
    note_level(alloc, runner, r, plan)?;
    Ok(is_sent || has_delivery(rest))
}

/// Whether a message was delivered by these steps.
fn has_delivery(steps: &[u8]) -> bool {
    steps
        .split(|b| *b == b' ')
        .any(|step| !step.starts_with(b"!"))
}

/// Notes the marks of a command's reply.
fn note_reply(
    alloc: Global,
    words: &[&[u8]],
    reply: &[u8],
    plan: &mut Plan,
) -> Result<(), NoMemory> {
    let [command, r, rest @ ..] = words else {
        return Ok(());
    };
    let r = replica_of(r);
    let (first, told) = first_word(reply);
    match (*command, first) {
        (b"do", b"ok") => note_sending(alloc, r, Mark::Operation, told, rest, plan),
        (b"beat", b"ok") => note_sending(alloc, r, Mark::NoOp, told, &[], plan),
        (b"give", b"took") => note_steps(alloc, r, id_of(rest), told, plan),
        (_, b"took") => note_steps(alloc, r, None, told, plan),
        (b"give", b"kept" | b"again" | b"old") => note_offer(alloc, r, rest, first, plan),
        (_, b"kept") => note_early(alloc, r, words, reply, plan),
        (b"ask", b"=") => note_answer(alloc, r, rest, reply, plan),
        (b"stop", b"open") => note_stop(alloc, r, rest, reply, plan),
        (b"do", _) => note_refused(alloc, r, rest, reply, plan),
        (b"beat" | b"give" | b"resend", _) => note_refused(alloc, r, words, reply, plan),
        (b"raw", _) => note_bare(r, Mark::Refusal, labels_of(alloc, command, reply)?, plan),
        _ => note_bare(r, Mark::Answer, labels_of(alloc, first, told)?, plan),
    }
}

/// A mark with no message.
fn bare(at: Spot, mark: Mark, labels: Labels) -> Event {
    Event {
        at,
        mark,
        id: None,
        sent: None,
        early: None,
        labels,
    }
}

/// Notes a mark with no message.
fn note_bare(r: u8, mark: Mark, labels: Labels, plan: &mut Plan) -> Result<(), NoMemory> {
    let at = plan.next_spot(r, None, labels.width());
    plan.add(bare(at, mark, labels))
}

/// Notes an answer, below the object that it is of.
fn note_answer(
    alloc: Global,
    r: u8,
    rest: &[&[u8]],
    reply: &[u8],
    plan: &mut Plan,
) -> Result<(), NoMemory> {
    match rest {
        [object, ..] => note_bare(r, Mark::Answer, labels_of(alloc, object, reply)?, plan),
        [] => Ok(()),
    }
}

/// Notes that a replica was stopped, with how many bytes outlived it, and with how many notes it was opened again.
fn note_stop(
    alloc: Global,
    r: u8,
    rest: &[&[u8]],
    reply: &[u8],
    plan: &mut Plan,
) -> Result<(), NoMemory> {
    match rest {
        [bytes, ..] => {
            let labels = Labels {
                upper: label_of_words(alloc, &[b"stop", bytes])?,
                lower: label_of(alloc, reply)?,
            };
            note_bare(r, Mark::Stop, labels, plan)
        }
        [] => Ok(()),
    }
}

/// Notes what was refused: the words of an act behind its object, or of a command without its replica.
fn note_refused(
    alloc: Global,
    r: u8,
    words: &[&[u8]],
    reply: &[u8],
    plan: &mut Plan,
) -> Result<(), NoMemory> {
    let labels = Labels {
        upper: label_of_words(alloc, words)?,
        lower: label_of(alloc, reply)?,
    };
    note_bare(r, Mark::Refusal, labels, plan)
}

/// Notes that messages came early by a command that doesn't name them.
fn note_early(
    alloc: Global,
    r: u8,
    words: &[&[u8]],
    reply: &[u8],
    plan: &mut Plan,
) -> Result<(), NoMemory> {
    match words {
        [command, ..] => note_bare(r, Mark::Early, labels_of(alloc, command, reply)?, plan),
        [] => Ok(()),
    }
}

/// The way that an id's label takes.
fn width_of_id(id: MessageId) -> u32 {
    if id.seq >= 1000 {
        70
    } else if id.seq >= 10 || id.origin >= 10 {
        42
    } else {
        21
    }
}

/// Notes a message that was sent, with its object and its operation where it has one.
fn note_sending(
    alloc: Global,
    r: u8,
    mark: Mark,
    number: &[u8],
    update: &[&[u8]],
    plan: &mut Plan,
) -> Result<(), NoMemory> {
    let labels = match update {
        [object, act @ ..] => Labels {
            upper: label_of(alloc, object)?,
            lower: label_of_words(alloc, act)?,
        },
        [] => Labels::none(alloc),
    };
    let id = MessageId {
        origin: r,
        seq: read_number(number).unwrap_or(0),
    };
    let at = plan.next_spot(r, None, labels.width().max(width_of_id(id)));
    plan.add(Event {
        id: Some(id),
        ..bare(at, mark, labels)
    })
}

/// The message that words name by its member and its number.
fn id_of(words: &[&[u8]]) -> Option<MessageId> {
    match words {
        [k, s, ..] => Some(MessageId {
            origin: replica_of(k),
            seq: read_number(s).unwrap_or(0),
        }),
        _ => None,
    }
}

/// Notes the steps of a reply, one behind the other. One message may have been given by the command itself.
fn note_steps(
    alloc: Global,
    r: u8,
    given: Option<MessageId>,
    steps: &[u8],
    plan: &mut Plan,
) -> Result<(), NoMemory> {
    for word in steps.split(|b| *b == b' ') {
        if let Some(told) = read_step(word) {
            note_step(alloc, r, given, told, plan)?;
        }
        if plan.is_cut {
            break;
        }
    }
    Ok(())
}

/// Notes a step: at the end of an arrow from the sending, or at the end of a wait, or of bytes that nobody sent. What was given
/// now didn't wait, though it may have come early before a stop.
fn note_step(
    alloc: Global,
    r: u8,
    given: Option<MessageId>,
    told: Told,
    plan: &mut Plan,
) -> Result<(), NoMemory> {
    let early = match given {
        Some(id) if id == told.id => None,
        _ => plan.early_of(r, told.id),
    };
    let sent = plan.sending_of(told.id);
    let (mark, label) = if told.is_dropped {
        (Mark::Dropped, b"dropped".as_slice())
    } else if early.is_none() && sent.is_none() {
        (Mark::Delivered, b"raw".as_slice())
    } else {
        (Mark::Delivered, b"".as_slice())
    };
    let labels = labels_of(alloc, b"", label)?;
    let at = plan.next_spot(r, sent, labels.width().max(width_of_id(told.id)));
    plan.add(Event {
        id: Some(told.id),
        sent: if early.is_none() { sent } else { None },
        early,
        ..bare(at, mark, labels)
    })
}

/// Notes a message that was given and kept, or that was here already.
fn note_offer(
    alloc: Global,
    r: u8,
    rest: &[&[u8]],
    reply: &[u8],
    plan: &mut Plan,
) -> Result<(), NoMemory> {
    let Some(id) = id_of(rest) else {
        return Ok(());
    };
    let mark = if is_word(reply, b"kept") {
        Mark::Early
    } else {
        Mark::Repeated
    };
    let sent = plan.sending_of(id);
    let labels = labels_of(alloc, b"", reply)?;
    let at = plan.next_spot(r, sent, labels.width().max(width_of_id(id)));
    plan.add(Event {
        id: Some(id),
        sent,
        ..bare(at, mark, labels)
    })
}
