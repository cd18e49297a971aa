//! The record of a message: the length of its rest, a byte that says how it came, and its frame.

ghost use Rattle.std.specs.Prelude.{◌≡◌, ◌≤◌, ◌∷◌, IsTrue, IfOk};
ghost use Rattle.op_base.specs.declared.tag.TheConstants.{MOST_MEMBERS};
ghost use Rattle.op_base.specs.Message.{fits};
ghost use Rattle.op_base.specs.Valid.{is_valid};
ghost use Rattle.frame_codec.specs.Grammar.{frame_of};
ghost use Rattle.frame_codec.specs.declared.version.Version.TheVariants as versions;
ghost use Rattle.world_model.specs.Records.{record_with};

use frame_codec::encode;
use op_base::{Message, NoMemory};
use std::alloc::Global;

/// The byte of a message that was sent.
pub(crate) const SENT: u8 = 1;

/// The byte of a message that was accepted.
pub(crate) const ACCEPTED: u8 = 2;

/// The record of a message that came in some way, in a store of n members.
pub(crate) fn record(alloc: Global, way: u8, message: &Message, n: u8) -> Result<Vec<u8>, NoMemory>
    requires fits { IsTrue (fits n message.now) }
    requires few { n ≤ MOST_MEMBERS }
    requires valid { IsTrue (is_valid message.now.op) }
    ensures { IfOk result (λ bytes. bytes.items ≡ record_with (way ∷ frame_of versions.Two n 0 message.now)) }
{
    let frame = encode(alloc, message, n, 0)?;
    let mut out = Vec::with_capacity(alloc, 5 + frame.len())?;
    let len = 1 + frame.len() as u32;
    out.extend_from_slice(&len.to_be_bytes())?;
    out.push(way)?;
    out.extend_from_slice(frame.as_slice())?;
    Ok(out)
}
