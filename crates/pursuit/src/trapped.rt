ghost use Rattle.gated.specs.Games.{game_of};
ghost use Rattle.trap.specs.Traps.{Traps, with_traps};
ghost use Rattle.std.specs.Prelude.{◌≡◌};

use gated::Gated;
use trap::Trapped;

// The arena of a board under the bytes of its traps.
pub(crate) fn under_traps<'b, 't>(arena: &'b Gated, bytes: &'t [u8]) -> Trapped<'b, 't, Gated>
    requires { Traps (game_of arena.now.board) bytes.now }
    ensures { with_traps (game_of result.below.now.board) result.traps.now ≡ with_traps (game_of arena.now.board) bytes.now }
{
    let Ok(trapped) = Trapped::new(arena, bytes) else {
        unreachable()
    };
    trapped
}
