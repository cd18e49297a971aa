//! Replies, and the lines that they are printed as.

ghost use Rattle.std.specs.Prelude.{◌≡◌, ◌++◌, ◌∷◌, [], length, take, map, codes, OnOk, OnErr};
ghost use Rattle.std.specs.Fmt.{decimal};
ghost use Rattle.script_lang.specs.Replies.{joined, spaced, answer_words, reply_words, reply_line, HasItsEntries};

use crate::listed::{put_all, put_number, put_spaced_number};
use itoa::Integer;
use op_base::{Answer, ElementIdList, IdList, NoMemory, StepList, Tag, Text};

/// What is replied to a command line.
#[derive(Debug, PartialEq, Eq, Drop)]
pub enum Reply {
    /// A message of this number was sent.
    Sent(u32),
    /// As many own operations are unstable as the window has.
    Busy,
    /// The member has sent all that it may.
    End,
    /// No no-op is due.
    Quiet,
    /// As many own no-ops are unstable as the no-op window has.
    Held,
    /// What an object is.
    Is(Answer),
    /// The member has not sent the message.
    Unsent,
    /// It names the replica itself as its member, or a message of its member and number was delivered.
    Old,
    /// A message of its id is early already.
    Again,
    /// It is too far ahead, by its number or by own messages of the replica that it has seen and that weren't sent.
    Far,
    /// The message is kept as early.
    Kept,
    /// Early messages were taken: what became of each, in order.
    Took(StepList),
    /// Nothing was taken or kept.
    Nothing,
    /// The bytes are no frame, with the number of their fault.
    BadFrame(u8),
    /// All replicas have delivered as many messages of each member.
    Settled,
    /// They have not; or members can't change, since two replicas' counts differ or an operation is unstable at one.
    Unsettled,
    /// The next epoch began: this one.
    Epoch(u32),
    /// The epoch is the last that there can be.
    Last,
    /// The ids of the messages that are kept, in log order.
    Log(IdList),
    /// How many messages are kept, and how many items are settled.
    Size { entries: usize, items: usize },
    /// The stable vector of `n` members.
    Stable { n: u8, tag: Tag },
    /// How many messages of each of `n` members were delivered.
    Seen { n: u8, tag: Tag },
    /// How many own no-ops aren't known to be everywhere.
    Noops(u32),
    /// The least member that isn't known to have the oldest own message that isn't known to be everywhere; none where all
    /// are.
    Lags(Option<u8>),
    /// The ids of a list's elements, in its order.
    Ids(ElementIdList),
    /// So many of a list's elements are kept and not shown.
    Tombs(usize),
    /// A replica was stopped and opened again, and has so many notes.
    Open(u64),
    /// The line is no command, with the number of its fault.
    Bad(u8),
}

/// Puts the line of a reply at the end of a text. On `NoMemory` the text is as before.
pub fn put_reply(reply: &Reply, out: &mut Text) -> Result<(), NoMemory>
    requires { HasItsEntries reply.now }
    ensures ok { OnOk result (out.new ≡ out.old ++ reply_line reply.now) }
    ensures err { OnErr result (out.new ≡ out.old) }
{
    let before = out.len();
    let done = put_line(reply, out);
    if done.is_err() {
        out.truncate(before);
    }
    done
}

/// The same, but that on `NoMemory` a part of the line may stand there.
fn put_line(reply: &Reply, out: &mut Text) -> Result<(), NoMemory>
    requires { HasItsEntries reply.now }
    ensures ok { OnOk result (out.new ≡ out.old ++ reply_line reply.now) }
    ensures err { OnErr result (take (length out.old) out.new ≡ out.old) }
{
    put_words(reply, out)?;
    out.push(b'\n')
}

/// Puts the words of a reply.
fn put_words(reply: &Reply, out: &mut Text) -> Result<(), NoMemory>
    requires { HasItsEntries reply.now }
    ensures ok { OnOk result (out.new ≡ out.old ++ joined (reply_words reply.now)) }
    ensures err { OnErr result (take (length out.old) out.new ≡ out.old) }
{
    match reply {
        Reply::Sent(number) => put_numbered(b"ok ", *number, out),
        Reply::Busy => out.extend_from_slice(b"busy"),
        Reply::End => out.extend_from_slice(b"end"),
        Reply::Quiet => out.extend_from_slice(b"quiet"),
        Reply::Held => out.extend_from_slice(b"held"),
        Reply::Is(answer) => put_answer(answer, out),
        Reply::Unsent => out.extend_from_slice(b"unsent"),
        Reply::Old => out.extend_from_slice(b"old"),
        Reply::Again => out.extend_from_slice(b"again"),
        Reply::Far => out.extend_from_slice(b"far"),
        Reply::Kept => out.extend_from_slice(b"kept"),
        Reply::Took(steps) => {
            out.extend_from_slice(b"took")?;
            put_all(steps.as_slice(), out)
        }
        Reply::Nothing => out.extend_from_slice(b"none"),
        Reply::BadFrame(fault) => put_numbered(b"bad frame ", u32::from(*fault), out),
        Reply::Settled => out.extend_from_slice(b"settled"),
        Reply::Unsettled => out.extend_from_slice(b"unsettled"),
        Reply::Epoch(number) => put_numbered(b"epoch ", *number, out),
        Reply::Last => out.extend_from_slice(b"last"),
        Reply::Log(ids) => {
            out.extend_from_slice(b"log")?;
            put_all(ids.as_slice(), out)
        }
        Reply::Size { entries, items } => put_size(*entries, *items, out),
        Reply::Stable { n, tag } => put_numbers(b"stable", *n, tag, out),
        Reply::Seen { n, tag } => put_numbers(b"seen", *n, tag, out),
        Reply::Noops(count) => put_numbered(b"noops ", *count, out),
        Reply::Lags(Some(member)) => put_numbered(b"lags ", u32::from(*member), out),
        Reply::Lags(None) => out.extend_from_slice(b"lags none"),
        Reply::Ids(ids) => {
            out.extend_from_slice(b"ids")?;
            put_all(ids.as_slice(), out)
        }
        Reply::Tombs(count) => put_numbered(b"tombs ", *count, out),
        Reply::Open(count) => put_numbered(b"open ", *count, out),
        Reply::Bad(fault) => put_numbered(b"bad ", u32::from(*fault), out),
    }
}

/// Puts words with a space at their end, and a number.
fn put_numbered<I: Integer>(words: &[u8], number: I, out: &mut Text) -> Result<(), NoMemory>
    ensures ok { OnOk result (out.new ≡ out.old ++ (words.now ++ I.text number)) }
    ensures err { OnErr result (take (length out.old) out.new ≡ out.old) }
{
    out.extend_from_slice(words)?;
    put_number(number, out)
}

/// Puts the size of a replica: how many messages are kept, and how many items are settled.
fn put_size(entries: usize, items: usize, out: &mut Text) -> Result<(), NoMemory>
    ensures ok { OnOk result (out.new
        ≡ out.old ++ (codes "size" ++ spaced (decimal entries ∷ decimal items ∷ []))) }
    ensures err { OnErr result (take (length out.old) out.new ≡ out.old) }
{
    out.extend_from_slice(b"size")?;
    put_spaced_number(entries, out)?;
    put_spaced_number(items, out)
}

/// Puts a word, and the numbers of a timestamp of n members behind a space each.
fn put_numbers(word: &[u8], n: u8, tag: &Tag, out: &mut Text) -> Result<(), NoMemory>
    requires { length tag.now ≡ n }
    ensures ok { OnOk result (out.new ≡ out.old ++ (word.now ++ spaced (map decimal tag.now))) }
    ensures err { OnErr result (take (length out.old) out.new ≡ out.old) }
{
    out.extend_from_slice(word)?;
    for x in 0..n {
        put_spaced_number(tag.at(x), out)?;
    }
    Ok(())
}

/// Puts the equals sign and an answer.
fn put_answer(answer: &Answer, out: &mut Text) -> Result<(), NoMemory>
    ensures ok { OnOk result (out.new ≡ out.old ++ (codes "=" ++ spaced (answer_words answer.now))) }
    ensures err { OnErr result (take (length out.old) out.new ≡ out.old) }
{
    out.push(b'=')?;
    match answer {
        Answer::Values(values) => put_all(values.as_slice(), out),
        Answer::Flag(true) => out.extend_from_slice(b" on"),
        Answer::Flag(false) => out.extend_from_slice(b" off"),
        Answer::Sum(sum) => put_spaced_number(*sum, out),
    }
}
