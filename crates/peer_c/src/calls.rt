//! The calls of a peer, with what C hands over and gets.

ghost use Rattle.std.specs.Prelude.{◌≡◌, ◌≢◌, ◌<◌, ◌≤◌, ◌↔◌, IfOk, IfErr, IsErrOf, false, Ok, Err, Some, None, true, length};
ghost use Rattle.op_base.specs.Reading.{object_of};
ghost use Rattle.op_base.specs.Timestamp.{entry};
ghost use Rattle.op_base.specs.declared.name.ObjectId.{ObjectId};
ghost use Rattle.op_base.specs.declared.operation.Update.{Update};
ghost use Rattle.causal_model.specs.Follows.{Follows};
ghost use Rattle.causal_model.specs.History.{events};
ghost use Rattle.causal_model.specs.Query.{answer};
ghost use Rattle.causal_model.specs.State.{State, start};
ghost use Rattle.replica_core.specs.Numbers.{are_numbers};
ghost use Rattle.replica_core.specs.Rules.{StandsFor, SameSettings, Unchanged};
ghost use Rattle.script_lang.specs.Replies.{reply_line};
ghost use Rattle.script_lang.specs.declared.fault.Fault.{Fault};
ghost use Rattle.script_lang.specs.declared.reply.Reply.TheVariants.{Is};
ghost use Rattle.peer.specs.Rules.{update_rule, peer_beat_rule, hear_rule, frames_again};
ghost use Rattle.peer_c.specs.Tells.{text_update, told_fault, told_update, told_beat, told_heard, is_done, is_frame, tells, update_frame, beat_frame, heard_steps, delivered_in, IsHandedOut, IsTold, IsFrameTold};

use crate::outcome::Outcome;
use crate::text::{OBJECT, faulty, hand_out, read_object, read_text};
use op_base::{Answer, ListOf, Step, StepList, Tag, Text};
use peer::{Beat, CreateFault, Heard, Peer, Updated};
use script_lang::{Reply, put_reply};
use std::alloc::Global;

/// A peer in a box.
pub fn create(alloc: Global, me: u8, n: u8, w: u8, limit: u32) -> Result<Box<Peer>, Outcome>
    ensures bad_numbers { IsErrOf result Outcome.BadNumbers ↔ (are_numbers me n w limit ≡ false) }
    ensures memory { IfErr result (λ outcome. outcome ≢ Outcome.BadNumbers → outcome ≡ Outcome.NoMemory) }
    ensures me { IfOk result (λ peer. peer.value.me ≡ me) }
    ensures n { IfOk result (λ peer. peer.value.n ≡ n) }
    ensures w { IfOk result (λ peer. peer.value.w ≡ w) }
    ensures limit { IfOk result (λ peer. peer.value.limit ≡ limit) }
    ensures empty { IfOk result (λ peer. StandsFor peer.value (start n me)) }
{
    match Peer::create(alloc, me, n, w, limit) {
        Ok(peer) => Box::new(alloc, peer).or(Err(Outcome::NoMemory)),
        Err(CreateFault::BadNumbers) => Err(Outcome::BadNumbers),
        Err(CreateFault::NoMemory) => Err(Outcome::NoMemory),
    }
}

/// Tells what came of an update, and hands out its frame.
fn tell_update(answer: Updated, frame: &mut [u8], count: &mut usize) -> Outcome
    ensures told { result ≡ told_update answer }
    ensures frame { result ≡ Outcome.Done → IsHandedOut (update_frame answer) frame.old frame.new count.new }
    ensures kept { result ≢ Outcome.Done → frame.new ≡ frame.old }
    ensures counted { result ≢ Outcome.Done → count.new ≡ count.old }
{
    match answer {
        Updated::Frame(bytes) => {
            hand_out(bytes.as_slice(), frame, count);
            Outcome::Done
        }
        Updated::Busy => Outcome::Busy,
        Updated::End => Outcome::End,
        Updated::NoMemory => Outcome::NoMemory,
    }
}

/// Sends the update of a text. Its frame goes to the buffer, where there is room for it.
pub fn update(
    alloc: Global,
    peer: &mut Peer,
    text: &[u8],
    frame: &mut [u8],
    count: &mut usize,
) -> Outcome
    ensures answer { (u : Update) → text_update text.now ≡ Ok u → Follows StandsFor Outcome.NoMemory (λ _. true) (tells told_update (update_rule peer.old.n peer.old.w peer.old.limit u)) peer.old result peer.new }
    ensures bad_text { (fault : Fault) → text_update text.now ≡ Err fault → result ≢ Outcome.NoMemory → result ≡ told_fault fault }
    ensures frame { result ≡ Outcome.Done → (u : Update) → text_update text.now ≡ Ok u → (s : State) → StandsFor peer.old s → IsHandedOut (update_frame (update_rule peer.old.n peer.old.w peer.old.limit u s).0) frame.old frame.new count.new }
    ensures kept { result ≢ Outcome.Done → frame.new ≡ frame.old }
    ensures counted { result ≢ Outcome.Done → count.new ≡ count.old }
    ensures settings { SameSettings peer.old peer.new }
    ensures refused { result ≢ Outcome.Done → Unchanged peer.old peer.new }
{
    match read_text(alloc, text) {
        Ok(update) => tell_update(peer.update(alloc, &update), frame, count),
        Err(fault) => faulty(fault),
    }
}

/// Tells what came of a beat, and hands out its frame.
fn tell_beat(answer: Beat, frame: &mut [u8], count: &mut usize) -> Outcome
    ensures told { result ≡ told_beat answer }
    ensures frame { result ≡ Outcome.Done → IsHandedOut (beat_frame answer) frame.old frame.new count.new }
    ensures kept { result ≢ Outcome.Done → frame.new ≡ frame.old }
    ensures counted { result ≢ Outcome.Done → count.new ≡ count.old }
{
    match answer {
        Beat::Frame(bytes) => {
            hand_out(bytes.as_slice(), frame, count);
            Outcome::Done
        }
        Beat::Quiet => Outcome::Quiet,
        Beat::Held => Outcome::Held,
        Beat::End => Outcome::End,
        Beat::NoMemory => Outcome::NoMemory,
    }
}

/// Sends a no-op where one is due. Its frame goes to the buffer, where there is room for it.
pub fn beat(alloc: Global, peer: &mut Peer, frame: &mut [u8], count: &mut usize) -> Outcome
    ensures answer { Follows StandsFor Outcome.NoMemory is_done (tells told_beat (peer_beat_rule peer.old.n peer.old.w peer.old.limit)) peer.old result peer.new }
    ensures frame { result ≡ Outcome.Done → (s : State) → StandsFor peer.old s → IsHandedOut (beat_frame (peer_beat_rule peer.old.n peer.old.w peer.old.limit s).0) frame.old frame.new count.new }
    ensures kept { result ≢ Outcome.Done → frame.new ≡ frame.old }
    ensures counted { result ≢ Outcome.Done → count.new ≡ count.old }
    ensures settings { SameSettings peer.old peer.new }
    ensures refused { result ≢ Outcome.Done → Unchanged peer.old peer.new }
{
    tell_beat(peer.beat(alloc), frame, count)
}

/// How many steps are deliveries.
fn deliveries(steps: &StepList) -> usize
    ensures { result ≡ delivered_in steps.now }
{
    let is_delivery = |step: &&Step| match step {
        Step::Took(_) => true,
        Step::Crook(_, _) => false,
    };
    steps.as_slice().iter().filter(is_delivery).count()
}

/// Tells what came of bytes that were heard: how many messages were delivered, and how many steps there were.
fn tell_heard(answer: Heard, delivered: &mut usize, steps: &mut usize) -> Outcome
    ensures told { result ≡ told_heard answer }
    ensures delivered { result ≡ Outcome.Done → delivered.new ≡ delivered_in (heard_steps answer) }
    ensures steps { result ≡ Outcome.Done → steps.new ≡ length (heard_steps answer) }
    ensures delivered_kept { result ≢ Outcome.Done → delivered.new ≡ delivered.old }
    ensures steps_kept { result ≢ Outcome.Done → steps.new ≡ steps.old }
{
    match answer {
        Heard::Bad(fault) => Outcome::BadFrame(fault.number()),
        Heard::Old => Outcome::Old,
        Heard::Again => Outcome::Again,
        Heard::Far => Outcome::Far,
        Heard::Kept => Outcome::Kept,
        Heard::Took(taken) => {
            *delivered = deliveries(&taken);
            *steps = taken.len();
            Outcome::Done
        }
        Heard::NoMemory => Outcome::NoMemory,
    }
}

/// Takes in bytes, and tells how many messages were delivered, and how many steps there were.
pub fn hear(
    alloc: Global,
    peer: &mut Peer,
    bytes: &[u8],
    delivered: &mut usize,
    steps: &mut usize,
) -> Outcome
    ensures answer { Follows StandsFor Outcome.NoMemory is_frame (tells told_heard (hear_rule peer.old.n peer.old.w peer.old.limit bytes.now)) peer.old result peer.new }
    ensures delivered { result ≡ Outcome.Done → (s : State) → StandsFor peer.old s → delivered.new ≡ delivered_in (heard_steps (hear_rule peer.old.n peer.old.w peer.old.limit bytes.now s).0) }
    ensures steps { result ≡ Outcome.Done → (s : State) → StandsFor peer.old s → steps.new ≡ length (heard_steps (hear_rule peer.old.n peer.old.w peer.old.limit bytes.now s).0) }
    ensures delivered_kept { result ≢ Outcome.Done → delivered.new ≡ delivered.old }
    ensures steps_kept { result ≢ Outcome.Done → steps.new ≡ steps.old }
    ensures settings { SameSettings peer.old peer.new }
    ensures refused { result ≢ Outcome.Done → result ≢ Outcome.Kept → Unchanged peer.old peer.new }
{
    tell_heard(peer.hear(alloc, bytes), delivered, steps)
}

/// Hands out bytes, and tells whether there was room for them.
fn told(bytes: &[u8], buffer: &mut [u8], count: &mut usize) -> Outcome
    ensures { IsTold bytes.now buffer.old buffer.new count.new result }
{
    if hand_out(bytes, buffer, count) {
        Outcome::Done
    } else {
        Outcome::NoRoom
    }
}

/// Hands out the frame at a place, from 0, of those to send again, oldest first. Where there is none, or no room for it,
/// the buffer stays as it was.
pub fn frame_at(
    alloc: Global,
    peer: &Peer,
    place: usize,
    frame: &mut [u8],
    count: &mut usize,
) -> Outcome
    ensures answer { (s : State) → StandsFor peer.now s → result ≢ Outcome.NoMemory → IsFrameTold (frames_again peer.now s) place frame.old frame.new count.new result }
    ensures kept { result ≢ Outcome.Done → frame.new ≡ frame.old }
    ensures counted { result ≢ Outcome.Done → result ≢ Outcome.NoRoom → count.new ≡ count.old }
{
    let Ok(frames) = peer.to_send_again(alloc) else {
        return Outcome::NoMemory;
    };
    match frames.as_slice().get(place) {
        Some(bytes) => told(bytes.as_slice(), frame, count),
        None => Outcome::NoFrame,
    }
}

/// The line of an answer, as a script's `ask` replies it.
fn line_of(alloc: Global, answer: Answer) -> Result<Text, Outcome>
    ensures line { IfOk result (λ line. line ≡ reply_line (Is answer)) }
    ensures fault { IfErr result (λ outcome. outcome ≡ Outcome.NoMemory) }
{
    let mut line = ListOf::new(alloc);
    match put_reply(&Reply::Is(answer), &mut line) {
        Ok(()) => Ok(line),
        Err(_) => Err(Outcome::NoMemory),
    }
}

/// What the object of a text is, as the line of an answer.
fn answer_line(alloc: Global, peer: &Peer, object: &[u8]) -> Result<Text, Outcome>
    ensures line { IfOk result (λ line. (o : ObjectId) → object_of object.now ≡ Some o → (s : State) → StandsFor peer.now s → line ≡ reply_line (Is (answer o (events s.history)))) }
    ensures bad_text { object_of object.now ≡ None → result ≡ Err (Outcome.BadText OBJECT) }
    ensures memory { (o : ObjectId) → object_of object.now ≡ Some o → IfErr result (λ outcome. outcome ≡ Outcome.NoMemory) }
{
    let object = read_object(alloc, object)?;
    match peer.ask(alloc, &object) {
        Ok(answer) => line_of(alloc, answer),
        Err(_) => Err(Outcome::NoMemory),
    }
}

/// Hands out what the object of a text is. Where the text is none, or there is no room for the line, the buffer stays as it
/// was.
pub fn ask(
    alloc: Global,
    peer: &Peer,
    object: &[u8],
    buffer: &mut [u8],
    count: &mut usize,
) -> Outcome
    ensures bad_text { object_of object.now ≡ None → result ≡ Outcome.BadText OBJECT }
    ensures line { (o : ObjectId) → object_of object.now ≡ Some o → (s : State) → StandsFor peer.now s → result ≢ Outcome.NoMemory → IsTold (reply_line (Is (answer o (events s.history)))) buffer.old buffer.new count.new result }
    ensures kept { result ≢ Outcome.Done → buffer.new ≡ buffer.old }
    ensures counted { result ≢ Outcome.Done → result ≢ Outcome.NoRoom → count.new ≡ count.old }
{
    match answer_line(alloc, peer, object) {
        Ok(line) => told(line.as_slice(), buffer, count),
        Err(outcome) => outcome,
    }
}

/// Tells the number of a member, where there is such a member.
pub fn number_at(numbers: &Tag, member: u8, number: &mut u32) -> Outcome
    ensures done { result ≡ Outcome.Done ↔ (member < length numbers.now) }
    ensures bad_numbers { length numbers.now ≤ member → result ≡ Outcome.BadNumbers }
    ensures number { result ≡ Outcome.Done → number.new ≡ entry numbers.now member }
    ensures kept { result ≢ Outcome.Done → number.new ≡ number.old }
{
    if member >= numbers.members() {
        return Outcome::BadNumbers;
    }
    *number = numbers.at(member);
    Outcome::Done
}
