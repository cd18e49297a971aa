//! The text of a live run.

ghost use Rattle.std.specs.Prelude.{◌≡◌, ◌++◌, ◌∷◌, [], ◌<◌, ℕ, List, length, map, take, All, codes, OnOk, OnErr};
ghost use Rattle.std.specs.Fmt.{decimal};
ghost use Rattle.std.specs.List.{flat_map};
ghost use Rattle.causal_model.specs.Counts.{members};
ghost use Rattle.causal_model.specs.declared.note.Note.{Note as ANote};
ghost use Rattle.script_lang.specs.Notes.{HasLine};
ghost use Rattle.script_lang.specs.Replies.{spaced, reply_words};
ghost use Rattle.world_model.specs.World.{PlainWorld};
ghost use Rattle.live_run.specs.Inputs.{object_text};
ghost use Rattle.live_run.specs.Texts.{line_with, bad_words, bad_lines, told_line, told_lines, reply_lines, journal_lines, journals_lines, final_line, final_lines, finals, live_text, IsClientReply, states_of};

use crate::input::NumberedLine;
use crate::objects::objects_in;
use crate::told::Told;
use causal_model::Note;
use op_base::{NoMemory, ObjectId, Text};
use replica_node::{Journal, Node};
use script_lang::{LiveLine, Reply, put_note, put_number, put_reply};
use std::alloc::Global;

/// Puts the text of a run at the end of a text: of these lines, of what each client was told, of the journals of `n`
/// members, and of what objects are at the nodes. On `NoMemory` a part of it may stand there.
pub fn put_live_text(
    alloc: Global,
    n: u8,
    lines: &[NumberedLine],
    told: &[Vec<Told>],
    journals: &[&[Note]],
    nodes: &[Node<Journal>],
    out: &mut Text,
) -> Result<(), NoMemory>
    requires replies { All (λ ts. All (λ t. IsClientReply t.reply) ts.items) told.now }
    requires journals { length journals.now ≡ n }
    requires notes { All (λ j. All (HasLine n) j.now) journals.now }
    requires nodes { length nodes.now ≡ n }
    ensures ok { (plain : PlainWorld) → states_of nodes.now ≡ plain.replicas → OnOk result (out.new ≡ out.old ++ live_text n lines.now plain (map (λ ts. ts.items) told.now) (map (λ j. j.now) journals.now)) }
    ensures err { OnErr result (take (length out.old) out.new ≡ out.old) }
{
    put_head(lines, told, out)?;
    put_journals(alloc, n, journals, out)?;
    put_finals(alloc, n, lines, nodes, out)
}

/// Puts what stands before the journals.
fn put_head(lines: &[NumberedLine], told: &[Vec<Told>], out: &mut Text) -> Result<(), NoMemory>
    requires { All (λ ts. All (λ t. IsClientReply t.reply) ts.items) told.now }
    ensures ok { OnOk result (out.new ≡ out.old ++ (bad_lines lines.now ++ (reply_lines 0 (map (λ ts. ts.items) told.now) ++ line_with (codes "settled" ∷ [])))) }
    ensures err { OnErr result (take (length out.old) out.new ≡ out.old) }
{
    put_bad_lines(lines, out)?;
    put_replies(told, out)?;
    out.extend_from_slice(b"settled\n")
}

/// Puts the lines that are no commands.
fn put_bad_lines(lines: &[NumberedLine], out: &mut Text) -> Result<(), NoMemory>
    ensures ok { OnOk result (out.new ≡ out.old ++ bad_lines lines.now) }
    ensures err { OnErr result (take (length out.old) out.new ≡ out.old) }
{
    for line in lines {
        put_bad_line(line, out)?;
    }
    Ok(())
}

/// Puts a line where it is no command.
fn put_bad_line(line: &NumberedLine, out: &mut Text) -> Result<(), NoMemory>
    ensures ok { OnOk result (out.new ≡ out.old ++ bad_words line.now.number line.now.line) }
    ensures err { OnErr result (take (length out.old) out.new ≡ out.old) }
{
    let LiveLine::Bad(code) = line.line else {
        return Ok(());
    };
    put_numbers(b"bad line", &[u64::from(line.number), u64::from(code)], out)?;
    out.push(b'\n')
}

/// Puts what each client was told.
fn put_replies(told: &[Vec<Told>], out: &mut Text) -> Result<(), NoMemory>
    requires replies { All (λ ts. All (λ t. IsClientReply t.reply) ts.items) told.now }
    ensures ok { OnOk result (out.new ≡ out.old ++ reply_lines 0 (map (λ ts. ts.items) told.now)) }
    ensures err { OnErr result (take (length out.old) out.new ≡ out.old) }
{
    for c in 0..told.len() {
        put_told(c, told[c].as_slice(), out)?;
    }
    Ok(())
}

/// Puts what a client was told.
fn put_told(c: usize, told: &[Told], out: &mut Text) -> Result<(), NoMemory>
    requires replies { All (λ t. IsClientReply t.reply) told.now }
    ensures ok { OnOk result (out.new ≡ out.old ++ told_lines c 1 told.now) }
    ensures err { OnErr result (take (length out.old) out.new ≡ out.old) }
{
    for i in 0..told.len() {
        put_told_line(c, i + 1, &told[i], out)?;
    }
    Ok(())
}

/// Puts what a client was told of its command `i`.
fn put_told_line(c: usize, i: usize, told: &Told, out: &mut Text) -> Result<(), NoMemory>
    requires reply { IsClientReply told.now.reply }
    ensures ok { OnOk result (out.new ≡ out.old ++ told_line c i told.now) }
    ensures err { OnErr result (take (length out.old) out.new ≡ out.old) }
{
    put_numbers(b"reply", &[c as u64, i as u64, told.place], out)?;
    put_rest(&told.reply, out)
}

/// Puts the journals.
fn put_journals(alloc: Global, n: u8, journals: &[&[Note]], out: &mut Text) -> Result<(), NoMemory>
    requires of_each { length journals.now ≡ n }
    requires notes { All (λ j. All (HasLine n) j.now) journals.now }
    ensures ok { OnOk result (out.new ≡ out.old ++ flat_map (journals_lines n (map (λ j. j.now) journals.now)) (members n)) }
    ensures err { OnErr result (take (length out.old) out.new ≡ out.old) }
{
    for r in 0..n {
        put_journal(alloc, r, n, journals[r as usize], out)?;
    }
    Ok(())
}

/// Puts a journal.
fn put_journal(alloc: Global, r: u8, n: u8, notes: &[Note], out: &mut Text) -> Result<(), NoMemory>
    requires lines { All (HasLine n) notes.now }
    ensures ok { OnOk result (out.new ≡ out.old ++ journal_lines n r notes.now) }
    ensures err { OnErr result (take (length out.old) out.new ≡ out.old) }
{
    put_numbers(b"journal", &[u64::from(r), notes.len() as u64], out)?;
    out.push(b'\n')?;
    for note in notes {
        put_note(alloc, note, n, out)?;
    }
    Ok(())
}

/// Puts what each object that lines name is at each node.
fn put_finals(
    alloc: Global,
    n: u8,
    lines: &[NumberedLine],
    nodes: &[Node<Journal>],
    out: &mut Text,
) -> Result<(), NoMemory>
    requires nodes { length nodes.now ≡ n }
    ensures ok { OnOk result (out.new ≡ out.old ++ finals n lines.now (states_of nodes.now)) }
    ensures err { OnErr result (take (length out.old) out.new ≡ out.old) }
{
    for object in &objects_in(alloc, lines)? {
        put_finals_of(alloc, n, object, nodes, out)?;
    }
    Ok(())
}

/// Puts what an object is at each node.
fn put_finals_of(
    alloc: Global,
    n: u8,
    object: &ObjectId,
    nodes: &[Node<Journal>],
    out: &mut Text,
) -> Result<(), NoMemory>
    requires nodes { length nodes.now ≡ n }
    ensures ok { OnOk result (out.new ≡ out.old ++ final_lines n (states_of nodes.now) object.now) }
    ensures err { OnErr result (take (length out.old) out.new ≡ out.old) }
{
    for r in 0..n {
        put_final(alloc, r, object, nodes, out)?;
    }
    Ok(())
}

/// Puts what an object is at a node.
fn put_final(
    alloc: Global,
    r: u8,
    object: &ObjectId,
    nodes: &[Node<Journal>],
    out: &mut Text,
) -> Result<(), NoMemory>
    requires inside { r < length nodes.now }
    ensures ok { OnOk result (out.new ≡ out.old ++ final_line (states_of nodes.now) r object.now) }
    ensures err { OnErr result (take (length out.old) out.new ≡ out.old) }
{
    let answer = nodes[r as usize].answer(alloc, object)?;
    put_numbers(b"final", &[u64::from(r)], out)?;
    put_object(object, out)?;
    put_rest(&Reply::Is(answer), out)
}

/// Puts a space and the text of an object.
fn put_object(object: &ObjectId, out: &mut Text) -> Result<(), NoMemory>
    ensures ok { OnOk result (out.new ≡ out.old ++ spaced (object_text object.now ∷ [])) }
    ensures err { OnErr result (take (length out.old) out.new ≡ out.old) }
{
    out.push(b' ')?;
    out.extend_from_slice(object.kind.word().as_bytes())?;
    out.push(b':')?;
    out.extend_from_slice(object.key.as_slice())
}

/// Puts words, and numbers behind a space each.
fn put_numbers(words: &[u8], numbers: &[u64], out: &mut Text) -> Result<(), NoMemory>
    ensures ok { OnOk result (out.new ≡ out.old ++ (words.now ++ spaced (map decimal numbers.now))) }
    ensures err { OnErr result (take (length out.old) out.new ≡ out.old) }
{
    out.extend_from_slice(words)?;
    for number in numbers {
        out.push(b' ')?;
        put_number(*number, out)?;
    }
    Ok(())
}

/// Puts the words of a reply behind a space each, and the end of the line.
fn put_rest(reply: &Reply, out: &mut Text) -> Result<(), NoMemory>
    requires { IsClientReply reply.now }
    ensures ok { OnOk result (out.new ≡ out.old ++ (spaced (reply_words reply.now) ++ 10 ∷ [])) }
    ensures err { OnErr result (take (length out.old) out.new ≡ out.old) }
{
    out.push(b' ')?;
    put_reply(reply, out)
}
