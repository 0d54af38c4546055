ghost use Rattle.arena.specs.Kind.{Decodes};

use crate::player::Player;

// What a place is: whose it is, and whether the runner is caught there.
#[derive(Clone, Copy, PartialEq, Eq, Debug)]
pub struct Kind {
    pub owner: Player,
    pub capture: bool,
}

// A byte that names no kind.
#[derive(Clone, Copy, PartialEq, Eq, Debug)]
pub struct UnknownKind(pub u8);

// The greatest byte that names a kind.
pub const MOST_KIND: u8 = 3;

// The kind that a byte names.
impl TryFrom<u8> for Kind {
    type Error = UnknownKind;

    ghost try_from_gives = { Decodes };

    fn try_from(byte: u8) -> Result<Kind, UnknownKind> {
        let (owner, capture) = match byte {
            0 => (Player::Runner, false),
            1 => (Player::Pursuer, false),
            2 => (Player::Runner, true),
            3 => (Player::Pursuer, true),
            _ => return Err(UnknownKind(byte)),
        };
        Ok(Kind { owner, capture })
    }
}
