//! The matrix of timestamps. Some of the other members send in turn, and each message has seen all before it; it is noted,
//! and what is stable is asked. The number is how many were noted. The room is all members.

ghost use Rattle.std.specs.Prelude.{◌≡◌, ◌≤◌, length};

use anyhow::{Result, bail};
use op_base::{MOST_MEMBERS, Tag};
use stability_matrix::Matrix;

/// The first member of a store, and what was sent.
#[derive(Drop)]
struct Receiver {
    sent: Tag,
    matrix: Matrix,
    ghost members: { length sent ≡ length matrix.rows },
    ghost first: { matrix.me ≡ 0 },
}

impl Receiver {
    /// Notes another member's next message. Whether no more of the member is stable then than was sent.
    fn note(&mut self, origin: u8) -> bool {
        if origin == 0 || origin >= self.sent.members() {
            return false;
        }
        let seq = self.sent.at(origin).saturating_add(1);
        self.sent.set(origin, seq);
        self.matrix.note(origin, self.sent);
        let stable = self.matrix.stable();
        origin < stable.members() && stable.at(origin) <= seq
    }
}

/// Lets so many hundredths of the members send in turn, so often.
pub fn measure(n: u8, filled: u32, turns: u32) -> Result<u64>
    requires some { 1 ≤ n }
    requires few { n ≤ MOST_MEMBERS }
    requires within { filled ≤ 100 }
{
    let mut receiver = Receiver {
        sent: Tag::zero(n),
        matrix: Matrix::new(n, 0),
    };
    let senders = u32::from(n) * filled / 100;
    let mut noted = 0u64;
    for _ in 0..turns {
        for origin in 1..n {
            if u32::from(origin) > senders {
                break;
            }
            if !receiver.note(origin) {
                bail!("more is stable than was sent");
            }
            noted = noted.wrapping_add(1);
        }
    }
    Ok(noted)
}
