//! The summary of a script and its transcript.

ghost use Rattle.std.specs.Prelude.{◌≡◌, ℕ, ◌+◌, ◌<◌, ◌^◌, ◌++◌, List, ◌∷◌, [], false, Some, take, length, map, unwrap_or, IfOk, OnOk, OnErr};
ghost use Rattle.std.specs.List.{zip};
ghost use Rattle.op_base.specs.Name.{same_text};
ghost use Rattle.workload.specs.Counts.{kept_of, count_in};
ghost use Rattle.workload.specs.Summary.{cut_lines, ended, word_at, counts_of, count_line, last_lines, told_reply, summary};

use indexmap::IndexMap;
use op_base::{NoMemory, Text};
use script_lang::{put_number, split};
use std::alloc::Global;

/// How often words come.
type WordCounts<'a> = IndexMap<&'a [u8], usize>;

/// The replies to so many last lines are shown.
const SHOWN: usize = 14;

/// The lines of a text that a newline ends, each without it.
fn cut_lines(alloc: Global, text: &[u8]) -> Result<Vec<&[u8]>, NoMemory>
    ensures { IfOk result (λ lines. map (λ line. line.now) lines.items ≡ cut_lines text.now) }
{
    let mut lines: Vec<&[u8]> = text.split(|b| *b == b'\n').collect(alloc)?;
    let _rest = lines.pop();
    Ok(lines)
}

/// The last lines, as many as replies are shown.
fn last_lines<'a, 'b>(lines: &'b [&'a [u8]]) -> &'b [&'a [u8]]
    ensures { map (λ line. line.now) result.now ≡ last_lines (map (λ line. line.now) lines.now) }
{
    &lines[lines.len().saturating_sub(SHOWN)..]
}

/// A word of a line, counted from 0, or nothing where there are fewer.
fn word_at(place: usize, line: &[u8]) -> &[u8]
    requires { place < 7 }
    ensures { result.now ≡ word_at place line.now }
{
    match split(line).as_slice().get(place) {
        Some(word) => word,
        None => b"",
    }
}

/// Counts a word once more.
fn count_word<'a>(word: &'a [u8], counts: &mut WordCounts<'a>) -> Result<(), NoMemory>
    requires { unwrap_or (kept_of counts.old word.now) 0 + 1 < 2 ^ 64 }
    ensures this { OnOk result (kept_of counts.new word.now ≡ Some (unwrap_or (kept_of counts.old word.now) 0 + 1)) }
    ensures others { OnOk result ((other : List ℕ) → same_text word.now other ≡ false → kept_of counts.new other ≡ kept_of counts.old other) }
{
    *counts.entry(word)?.or_insert(0) += 1;
    Ok(())
}

/// How often each first word of the replies comes, in the order in which they come first.
fn first_words<'a>(alloc: Global, replies: &[&'a [u8]]) -> Result<WordCounts<'a>, NoMemory>
    ensures { IfOk result (λ counts. (word : List ℕ) → kept_of counts word ≡ count_in (map (λ reply. word_at 0 reply.now) replies.now) word) }
{
    let mut counts = IndexMap::new(alloc);
    for reply in replies {
        count_word(word_at(0, reply), &mut counts)?;
    }
    Ok(counts)
}

/// The same in byte order.
fn counts_of<'a>(alloc: Global, replies: &[&'a [u8]]) -> Result<WordCounts<'a>, NoMemory>
    ensures { IfOk result (λ counts. map (λ e. (e.0.now, e.1)) counts.entries ≡ counts_of (map (word_at 0) (map (λ reply. reply.now) replies.now))) }
{
    let mut counts = first_words(alloc, replies)?;
    counts.sort_keys()?;
    Ok(counts)
}

/// Puts a word, a space and a number as a line.
fn put_count(word: &[u8], count: usize, out: &mut Text) -> Result<(), NoMemory>
    ensures ok { OnOk result (out.new ≡ out.old ++ (count_line (word.now, count) ++ 10 ∷ [])) }
    ensures err { OnErr result (take (length out.old) out.new ≡ out.old) }
{
    out.extend_from_slice(word)?;
    out.push(b' ')?;
    put_number(count, out)?;
    out.push(b'\n')
}

/// Puts such a line for each word and its count.
fn put_counts(counts: &WordCounts<'_>, out: &mut Text) -> Result<(), NoMemory>
    ensures ok { OnOk result (out.new ≡ out.old ++ ended (map count_line (map (λ e. (e.0.now, e.1)) counts.now.entries))) }
    ensures err { OnErr result (take (length out.old) out.new ≡ out.old) }
{
    for (word, count) in counts {
        put_count(word, *count, out)?;
    }
    Ok(())
}

/// Puts the object that a line asks for, a space and the reply as a line.
fn put_reply(line: &[u8], reply: &[u8], out: &mut Text) -> Result<(), NoMemory>
    ensures ok { OnOk result (out.new ≡ out.old ++ (told_reply (line.now, reply.now) ++ 10 ∷ [])) }
    ensures err { OnErr result (take (length out.old) out.new ≡ out.old) }
{
    out.extend_from_slice(word_at(2, line))?;
    out.push(b' ')?;
    out.extend_from_slice(reply)?;
    out.push(b'\n')
}

/// Puts such a line for each line and its reply.
fn put_replies(lines: &[&[u8]], replies: &[&[u8]], out: &mut Text) -> Result<(), NoMemory>
    ensures ok { OnOk result (out.new ≡ out.old ++ ended (map told_reply (zip (map (λ line. line.now) lines.now) (map (λ reply. reply.now) replies.now)))) }
    ensures err { OnErr result (take (length out.old) out.new ≡ out.old) }
{
    for (line, reply) in lines.iter().zip(replies) {
        put_reply(line, reply, out)?;
    }
    Ok(())
}

/// Puts the summary of a script and its transcript at the end of a text: how many replies there are, how often each first
/// word of them comes, and, for the last fourteen lines of the script and the last fourteen replies in their order, the
/// third word of the one, which is the object that it asks for, and the other. On `NoMemory` the text is as before.
pub fn put_summary(
    alloc: Global,
    script: &[u8],
    transcript: &[u8],
    out: &mut Text,
) -> Result<(), NoMemory>
    ensures ok { OnOk result (out.new ≡ out.old ++ summary script.now transcript.now) }
    ensures err { OnErr result (out.new ≡ out.old) }
{
    let before = out.len();
    let done = put_lines(alloc, script, transcript, out);
    if done.is_err() {
        out.truncate(before);
    }
    done
}

/// The same, but that on `NoMemory` a part of the summary may stand there.
fn put_lines(
    alloc: Global,
    script: &[u8],
    transcript: &[u8],
    out: &mut Text,
) -> Result<(), NoMemory>
    ensures ok { OnOk result (out.new ≡ out.old ++ summary script.now transcript.now) }
    ensures err { OnErr result (take (length out.old) out.new ≡ out.old) }
{
    let lines = cut_lines(alloc, script)?;
    let replies = cut_lines(alloc, transcript)?;
    put_count(b"lines", replies.len(), out)?;
    put_counts(&counts_of(alloc, &replies)?, out)?;
    put_replies(last_lines(&lines), last_lines(&replies), out)
}
