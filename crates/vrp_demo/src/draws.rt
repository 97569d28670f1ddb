ghost use Rattle.std.specs.Prelude.{◌≡◌, ◌≤◌, ◌%◌, ◌<◌};
ghost use Rattle.vrp_demo.specs.Draws.{next_state};

/// The draws of the generator: each makes the next state, of which its answer is the remainder.
#[derive(Drop)]
pub(crate) struct Draws {
    pub(crate) state: u32,
}

impl Draws {
    /// A number below `sides`.
    pub(crate) fn draw(&mut self, sides: u8) -> u8
        requires state { self.old.state ≤ 65536 }
        requires sides { 1 ≤ sides }
        ensures state { self.new.state ≡ next_state self.old.state }
        ensures answer { result ≡ self.new.state % sides }
    {
        self.state = (75 * self.state + 74) % 65_537;
        (self.state % u32::from(sides)) as u8
    }
}
