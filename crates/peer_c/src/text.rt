//! Texts that C hands over, and bytes that it gets.

ghost use Rattle.std.specs.Prelude.{◌≡◌, ◌++◌, ◌≤◌, ◌↔◌, IsTrue, IfOk, IfErr, Some, None, false, length, drop, map};
ghost use Rattle.op_base.specs.Reading.{object_of};
ghost use Rattle.script_lang.specs.Memory.{Reads};
ghost use Rattle.peer_c.specs.Tells.{words_update, text_update, told_fault};

use crate::outcome::Outcome;
use op_base::{ObjectId, Update};
use script_lang::{Fault, read_update, split};
use std::alloc::Global;

/// The number of the fault of a text that is no object.
pub const OBJECT: u8 = 5;

/// What a text is told as that has a fault.
pub fn faulty(fault: Fault) -> Outcome
    ensures { result ≡ told_fault fault }
{
    match fault.number() {
        Some(number) => Outcome::BadText(number),
        None => Outcome::NoMemory,
    }
}

/// The update of words: an object, an operation and no more than two arguments.
fn read_words(alloc: Global, words: &[&[u8]]) -> Result<Update, Fault>
    ensures { Reads (words_update (map (λ word. word.now) words.now)) result }
{
    match words {
        [object, operation, arguments @ ..] if arguments.len() <= 2 => {
            read_update(alloc, object, operation, arguments)
        }
        _ => Err(Fault::Words),
    }
}

/// The update of a text, as it stands behind `do r` in a script.
pub fn read_text(alloc: Global, text: &[u8]) -> Result<Update, Fault>
    ensures { Reads (text_update text.now) result }
{
    read_words(alloc, split(text).as_slice())
}

/// The object of a text. It takes no memory.
pub fn read_object(alloc: Global, text: &[u8]) -> Result<ObjectId, Outcome>
    ensures object { IfOk result (λ object. object_of text.now ≡ Some object) }
    ensures fault { IfErr result (λ outcome. (outcome ≡ Outcome.BadText OBJECT) × (object_of text.now ≡ None)) }
{
    match ObjectId::read(alloc, text) {
        Ok(object) => Ok(object),
        Err(_) => Err(Outcome::BadText(OBJECT)),
    }
}

/// Copies bytes to the head of a buffer, where there is room for all of them, and tells how many they are.
pub fn hand_out(bytes: &[u8], buffer: &mut [u8], count: &mut usize) -> bool
    ensures count { count.new ≡ length bytes.now }
    ensures fits { IsTrue result ↔ (length bytes.now ≤ length buffer.old) }
    ensures copied { IsTrue result → buffer.new ≡ bytes.now ++ drop (length bytes.now) buffer.old }
    ensures kept { result ≡ false → buffer.new ≡ buffer.old }
{
    *count = bytes.len();
    if bytes.len() > buffer.len() {
        return false;
    }
    buffer[..bytes.len()].copy_from_slice(bytes);
    true
}
