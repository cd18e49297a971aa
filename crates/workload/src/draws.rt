//! The generator of a script's numbers.

ghost use Rattle.std.specs.Prelude.{◌≡◌, ◌≤◌, ◌<◌};
ghost use Rattle.workload.specs.Draws.{next_state, drawn};

/// Numbers that are drawn one after the other, from a state.
#[derive(Drop)]
pub struct Draws {
    pub state: u32,
}

impl Draws {
    /// Draws a number below `m`.
    #[tactic(auto, unfolding(crate::specs::Draws::next_state, crate::specs::Draws::given))]
    pub fn below(&mut self, m: u32) -> u32
        requires { 1 ≤ m }
        ensures number { result ≡ drawn 1 m self.old.state }
        ensures state { self.new.state ≡ next_state self.old.state }
        ensures below { result < m }
    {
        let next = (u64::from(self.state) * 1103515245 + 12345) % 2147483648;
        self.state = next as u32;
        self.state / 65536 % m
    }
}
