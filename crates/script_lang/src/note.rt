//! Notes, and the lines that they are printed as.

ghost use Rattle.std.specs.Prelude.{◌≡◌, ◌++◌, ◌∷◌, [], ◌<◌, length, take, codes, OnOk, OnErr, IsTrue};
ghost use Rattle.op_base.specs.Message.{fits};
ghost use Rattle.script_lang.specs.Replies.{joined, spaced, id_word};
ghost use Rattle.script_lang.specs.Notes.{frame_word, note_words, note_line, HasLine};

use crate::listed::Listed;
use causal_model::Note;
use frame_codec::encode;
use op_base::{Message, MessageId, NoMemory, Text};
use std::alloc::Global;

/// Puts the line of a note of a replica of n members in epoch 0 at the end of a text. The end of an epoch has none. On
/// `NoMemory` the text is as before.
pub fn put_note(alloc: Global, note: &Note, n: u8, out: &mut Text) -> Result<(), NoMemory>
    requires { HasLine n note.now }
    ensures ok { OnOk result (out.new ≡ out.old ++ note_line n note.now) }
    ensures err { OnErr result (out.new ≡ out.old) }
{
    let before = out.len();
    let done = put_line(alloc, note, n, out);
    if done.is_err() {
        out.truncate(before);
    }
    done
}

/// The same, but that on `NoMemory` a part of the line may stand there.
fn put_line(alloc: Global, note: &Note, n: u8, out: &mut Text) -> Result<(), NoMemory>
    requires { HasLine n note.now }
    ensures ok { OnOk result (out.new ≡ out.old ++ note_line n note.now) }
    ensures err { OnErr result (take (length out.old) out.new ≡ out.old) }
{
    match note {
        Note::Sent(message) => put_message(alloc, b"sent ", message, n, out)?,
        Note::Kept(message) => put_message(alloc, b"kept ", message, n, out)?,
        Note::Took(id) => put_id(b"took ", id, out)?,
        Note::Crook(id) => put_id(b"crook ", id, out)?,
        Note::Regroup { .. } => unreachable!(),
    }
    out.push(b'\n')
}

/// Puts a word and a message's frame in hexadecimal.
fn put_message(
    alloc: Global,
    word: &[u8],
    message: &Message,
    n: u8,
    out: &mut Text,
) -> Result<(), NoMemory>
    requires { IsTrue (fits n message.now) }
    ensures ok { OnOk result (out.new ≡ out.old ++ (word.now ++ frame_word n message.now)) }
    ensures err { OnErr result (take (length out.old) out.new ≡ out.old) }
{
    let frame = encode(alloc, message, n, 0)?;
    let text = hex::encode(alloc, frame.as_slice())?;
    out.extend_from_slice(word)?;
    out.extend_from_slice(text.as_bytes())
}

/// Puts a word and an id.
fn put_id(word: &[u8], id: &MessageId, out: &mut Text) -> Result<(), NoMemory>
    ensures ok { OnOk result (out.new ≡ out.old ++ (word.now ++ id_word id.now)) }
    ensures err { OnErr result (take (length out.old) out.new ≡ out.old) }
{
    out.extend_from_slice(word)?;
    id.put(out)
}
