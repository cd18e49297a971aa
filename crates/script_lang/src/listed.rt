//! What is put at the end of a text: words, each behind a space.

ghost use Rattle.std.specs.Prelude.{◌≡◌, ◌++◌, ◌∷◌, [], List, ℕ, length, take, map, OnOk, OnErr};
ghost use Rattle.std.specs.Fmt.{decimal};
ghost use Rattle.script_lang.specs.Replies.{spaced, id_word, element_word, step_word};

use itoa::{Buffer, Integer};
use op_base::{ElementId, MessageId, NoMemory, Step, Text, Value};

/// What a line lists.
pub trait Listed {
    ghost word: { Self → List ℕ };

    /// Puts the word. On `NoMemory` a part of it may stand there.
    fn put(&self, out: &mut Text) -> Result<(), NoMemory>
        ensures ok { OnOk result (out.new ≡ out.old ++ word self.now) }
        ensures err { OnErr result (take (length out.old) out.new ≡ out.old) };
}

/// Puts a number in decimal.
pub fn put_number<I: Integer>(number: I, out: &mut Text) -> Result<(), NoMemory>
    ensures ok { OnOk result (out.new ≡ out.old ++ I.text number) }
    ensures err { OnErr result (take (length out.old) out.new ≡ out.old) }
{
    out.extend_from_slice(Buffer::new().format(number).as_bytes())
}

/// Puts a space and a number.
pub fn put_spaced_number<I: Integer>(number: I, out: &mut Text) -> Result<(), NoMemory>
    ensures ok { OnOk result (out.new ≡ out.old ++ spaced (I.text number ∷ [])) }
    ensures err { OnErr result (take (length out.old) out.new ≡ out.old) }
{
    out.push(b' ')?;
    put_number(number, out)
}

/// Puts a point and a number.
fn put_pointed_number<I: Integer>(number: I, out: &mut Text) -> Result<(), NoMemory>
    ensures ok { OnOk result (out.new ≡ out.old ++ 46 ∷ I.text number) }
    ensures err { OnErr result (take (length out.old) out.new ≡ out.old) }
{
    out.push(b'.')?;
    put_number(number, out)
}

impl Listed for MessageId {
    ghost word = { id_word };

    fn put(&self, out: &mut Text) -> Result<(), NoMemory> {
        put_number(self.origin, out)?;
        out.push(b':')?;
        put_number(self.seq, out)
    }
}

impl Listed for ElementId {
    ghost word = { element_word };

    fn put(&self, out: &mut Text) -> Result<(), NoMemory> {
        put_number(self.epoch, out)?;
        put_pointed_number(self.origin, out)?;
        put_pointed_number(self.seq, out)
    }
}

impl Listed for Step {
    ghost word = { step_word };

    fn put(&self, out: &mut Text) -> Result<(), NoMemory> {
        match self {
            Step::Took(id) => id.put(out),
            Step::Crook(id, _) => {
                out.push(b'!')?;
                id.put(out)
            }
        }
    }
}

impl Listed for Value {
    ghost word = { λ value. value };

    fn put(&self, out: &mut Text) -> Result<(), NoMemory> {
        out.extend_from_slice(self.as_slice())
    }
}

/// Puts items, each behind a space.
pub fn put_all<T: Listed>(items: &[T], out: &mut Text) -> Result<(), NoMemory>
    ensures ok { OnOk result (out.new ≡ out.old ++ spaced (map T.word items.now)) }
    ensures err { OnErr result (take (length out.old) out.new ≡ out.old) }
{
    for item in items {
        out.push(b' ')?;
        item.put(out)?;
    }
    Ok(())
}
