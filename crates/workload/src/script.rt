//! The made script.

ghost use Rattle.std.specs.Prelude.{◌≡◌, ◌≤◌, ◌++◌, ◌∷◌, [], codes, IfOk, OnOk};
ghost use Rattle.std.specs.Fmt.{decimal};
ghost use Rattle.script_lang.specs.Replies.{joined, spaced};
ghost use Rattle.workload.specs.Script.{object_word, argument_words, argument_after, do_operation, do_line, ask_line, resend_line, give_line, line_of_kind, line_from, lines_from, made_header, questions_of, closing_lines, words_line, words_text, made_script};

use crate::draws::Draws;
use crate::kind::kind_at;
use op_base::{Argument, Kind, NoMemory, Text, Verb, operation_of};
use script_lang::put_number;
use std::alloc::Global;

/// A line that is drawn has at most so many bytes.
const LINE_BYTES: usize = 26;

/// The header and the closing lines have at most so many bytes.
const OTHER_BYTES: usize = 300;

/// The script of a seed: a header of `n` members and a window of `w`, `count` lines that are drawn, and then `settle` and
/// a question for each of the fourteen objects. The same numbers give the same script.
pub fn make(alloc: Global, seed: u32, count: u32, n: u8, w: u8) -> Result<Text, NoMemory>
    requires { 1 ≤ n }
    ensures { IfOk result (λ text. text ≡ made_script seed count n w) }
{
    let mut out = Text::with_capacity(alloc, OTHER_BYTES + LINE_BYTES * count as usize)?;
    put_header(n, w, &mut out)?;
    put_lines(count, n, seed, &mut out)?;
    put_closing(&mut out)?;
    Ok(out)
}

/// Puts a space and a number.
fn put_spaced(number: u32, out: &mut Text) -> Result<(), NoMemory>
    ensures { OnOk result (out.new ≡ out.old ++ spaced (decimal number ∷ [])) }
{
    out.push(b' ')?;
    put_number(number, out)
}

/// Puts a space and an object.
fn put_object(kind: Kind, key: u32, out: &mut Text) -> Result<(), NoMemory>
    ensures { OnOk result (out.new ≡ out.old ++ spaced (object_word kind key ∷ [])) }
{
    out.push(b' ')?;
    out.extend_from_slice(kind.word().as_bytes())?;
    out.extend_from_slice(b":k")?;
    put_number(key, out)
}

/// Puts the header.
fn put_header(n: u8, w: u8, out: &mut Text) -> Result<(), NoMemory>
    ensures { OnOk result (out.new ≡ out.old ++ words_line (made_header n w)) }
{
    out.extend_from_slice(b"store")?;
    put_spaced(u32::from(n), out)?;
    put_spaced(u32::from(w), out)?;
    out.extend_from_slice(b" 65535\n")
}

/// Puts so many lines that are drawn from a state on.
fn put_lines(count: u32, n: u8, state: u32, out: &mut Text) -> Result<(), NoMemory>
    requires { 1 ≤ n }
    ensures { OnOk result (out.new ≡ out.old ++ words_text (lines_from n count state)) }
{
    let mut draws = Draws { state };
    for _line in 0..count {
        put_line(n, &mut draws, out)?;
    }
    Ok(())
}

/// Puts a line that is drawn.
fn put_line(n: u8, draws: &mut Draws, out: &mut Text) -> Result<(), NoMemory>
    requires { 1 ≤ n }
    ensures text { OnOk result (out.new ≡ out.old ++ words_line (line_from n draws.old.state).words) }
    ensures state { OnOk result (draws.new.state ≡ (line_from n draws.old.state).after) }
{
    let r = draws.below(u32::from(n));
    let kind = draws.below(8);
    put_words(kind, n, r, draws, out)?;
    out.push(b'\n')
}

/// Puts the words of a line of a kind.
fn put_words(kind: u32, n: u8, r: u32, draws: &mut Draws, out: &mut Text) -> Result<(), NoMemory>
    requires { 1 ≤ n }
    ensures text { OnOk result (out.new ≡ out.old ++ joined (line_of_kind kind n r draws.old.state).words) }
    ensures state { OnOk result (draws.new.state ≡ (line_of_kind kind n r draws.old.state).after) }
{
    match kind {
        0..=3 => put_do(r, draws, out),
        4 => put_ask(r, draws, out),
        5 => put_beat(r, out),
        6 => put_resend(n, r, draws, out),
        _ => put_give(n, r, draws, out),
    }
}

/// Puts the words of an operation whose code is drawn.
fn put_do(r: u32, draws: &mut Draws, out: &mut Text) -> Result<(), NoMemory>
    ensures text { OnOk result (out.new ≡ out.old ++ joined (do_line r draws.old.state).words) }
    ensures state { OnOk result (draws.new.state ≡ (do_line r draws.old.state).after) }
{
    let code = 1 + draws.below(19) as u8;
    put_operation(operation_of(code), r, draws, out)
}

/// Puts the words of an operation.
fn put_operation(
    operation: (Kind, Verb),
    r: u32,
    draws: &mut Draws,
    out: &mut Text,
) -> Result<(), NoMemory>
    ensures text { OnOk result (out.new ≡ out.old ++ joined (do_operation operation r draws.old.state).words) }
    ensures state { OnOk result (draws.new.state ≡ (do_operation operation r draws.old.state).after) }
{
    let (kind, verb) = operation;
    out.extend_from_slice(b"do")?;
    put_spaced(r, out)?;
    put_object(kind, draws.below(2), out)?;
    out.push(b' ')?;
    out.extend_from_slice(verb.word().as_bytes())?;
    put_argument(verb.argument(), draws, out)
}

/// Puts a space and an argument, where there is one. None is drawn of lists.
fn put_argument(argument: Argument, draws: &mut Draws, out: &mut Text) -> Result<(), NoMemory>
    ensures text { OnOk result (out.new ≡ out.old ++ spaced (argument_words argument draws.old.state)) }
    ensures state { OnOk result (draws.new.state ≡ argument_after argument draws.old.state) }
{
    match argument {
        Argument::Value => put_value(draws.below(16), out),
        Argument::Amount => put_spaced(draws.below(100), out),
        Argument::Nothing | Argument::Insertion | Argument::Element => Ok(()),
    }
}

/// Puts a space and the value of a number.
fn put_value(number: u32, out: &mut Text) -> Result<(), NoMemory>
    ensures { OnOk result (out.new ≡ out.old ++ spaced ((codes "v" ++ decimal number) ∷ [])) }
{
    out.extend_from_slice(b" v")?;
    put_number(number, out)
}

/// Puts the words of a question of an object that is drawn.
fn put_ask(r: u32, draws: &mut Draws, out: &mut Text) -> Result<(), NoMemory>
    ensures text { OnOk result (out.new ≡ out.old ++ joined (ask_line r draws.old.state).words) }
    ensures state { OnOk result (draws.new.state ≡ (ask_line r draws.old.state).after) }
{
    out.extend_from_slice(b"ask")?;
    put_spaced(r, out)?;
    let kind = kind_at(draws.below(7));
    put_object(kind, draws.below(2), out)
}

/// Puts the words of a beat.
fn put_beat(r: u32, out: &mut Text) -> Result<(), NoMemory>
    ensures { OnOk result (out.new ≡ out.old ++ (codes "beat" ++ spaced (decimal r ∷ []))) }
{
    out.extend_from_slice(b"beat")?;
    put_spaced(r, out)
}

/// Puts the words of a resend of a member that is drawn.
fn put_resend(n: u8, r: u32, draws: &mut Draws, out: &mut Text) -> Result<(), NoMemory>
    requires { 1 ≤ n }
    ensures text { OnOk result (out.new ≡ out.old ++ joined (resend_line n r draws.old.state).words) }
    ensures state { OnOk result (draws.new.state ≡ (resend_line n r draws.old.state).after) }
{
    out.extend_from_slice(b"resend")?;
    put_spaced(r, out)?;
    put_spaced(draws.below(u32::from(n)), out)
}

/// Puts the words of a give of a message that is drawn.
fn put_give(n: u8, r: u32, draws: &mut Draws, out: &mut Text) -> Result<(), NoMemory>
    requires { 1 ≤ n }
    ensures text { OnOk result (out.new ≡ out.old ++ joined (give_line n r draws.old.state).words) }
    ensures state { OnOk result (draws.new.state ≡ (give_line n r draws.old.state).after) }
{
    out.extend_from_slice(b"give")?;
    put_spaced(r, out)?;
    put_spaced(draws.below(u32::from(n)), out)?;
    put_spaced(1 + draws.below(20), out)
}

/// Puts the lines behind those that are drawn.
fn put_closing(out: &mut Text) -> Result<(), NoMemory>
    ensures { OnOk result (out.new ≡ out.old ++ words_text closing_lines) }
{
    out.extend_from_slice(b"settle\n")?;
    for place in 0..7 {
        put_questions(kind_at(place), out)?;
    }
    Ok(())
}

/// Puts the questions of a kind.
fn put_questions(kind: Kind, out: &mut Text) -> Result<(), NoMemory>
    ensures { OnOk result (out.new ≡ out.old ++ words_text (questions_of kind)) }
{
    put_question(kind, 0, out)?;
    put_question(kind, 1, out)
}

/// Puts a closing question.
fn put_question(kind: Kind, key: u32, out: &mut Text) -> Result<(), NoMemory>
    ensures { OnOk result (out.new ≡ out.old ++ words_line (codes "ask" ∷ codes "0" ∷ object_word kind key ∷ [])) }
{
    out.extend_from_slice(b"ask 0")?;
    put_object(kind, key, out)?;
    out.push(b'\n')
}
