// The two players.
#[derive(Clone, Copy, PartialEq, Eq, Debug)]
pub enum Player {
    Runner,
    Pursuer,
}
