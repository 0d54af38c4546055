ghost use Rattle.std.specs.Prelude.{◌≡◌, ℕ, ◌+◌, ◌<◌, ◌≤◌, length, Decides, MatchOption, MatchResult, slice_index};
ghost use Rattle.arena.specs.Kind.{is_capture_kind, owner_of};
ghost use Rattle.arena.specs.Listed.{Cause, Exact, LawfulRows, Parts, listed, moves_of};

use crate::bytes::first_above;
use crate::interface::Arena;
use crate::kind::{Kind, MOST_KIND};
use crate::listing_refusal::ListingRefusal;
use crate::player::Player;

// A game by three rows of the caller's: a kind for each place (0 runner, 1 pursuer, 2 and 3 the same as capture places),
// where each place's moves start and where the last one's end, and the moves.
#[derive(Clone, Copy)]
pub struct Listing<'k, 's, 'm> {
    kinds: &'k [u8],
    starts: &'s [u32],
    moves: &'m [u32],
    // The rows list a game.
    ghost lawful: { LawfulRows kinds.now starts.now moves.now },
}

// Whether the starts part so many moves among so many places.
fn is_parting(places: usize, moves: usize, starts: &[u32]) -> bool
    ensures { Decides result (Parts places moves starts.now) }
{
    let (Some(first), Some(end)) = (starts.first(), starts.last()) else {
        return false;
    };
    if starts.len() - 1 != places || *first != 0 || *end as usize != moves {
        return false;
    }
    starts.is_sorted()
}

impl<'k, 's, 'm> Listing<'k, 's, 'm> {
    // The listing of these rows, or the first cause why they list no game.
    pub fn new(
        kinds: &'k [u8],
        starts: &'s [u32],
        moves: &'m [u32],
    ) -> Result<Listing<'k, 's, 'm>, ListingRefusal>
        ensures { MatchResult result (λ l. (l.kinds.now ≡ kinds.now) × (l.starts.now ≡ starts.now) × (l.moves.now ≡ moves.now) × LawfulRows kinds.now starts.now moves.now) (Cause kinds.now starts.now moves.now) }
    {
        if let Some(place) = first_above(kinds, MOST_KIND) {
            return Err(ListingRefusal::Kind { place });
        }
        if !is_parting(kinds.len(), moves.len(), starts) {
            return Err(ListingRefusal::Starts);
        }
        Ok(Listing {
            kinds,
            starts,
            moves,
        })
    }

    // The kind of a place, if there is one.
    fn kind_of(&self, place: usize) -> Option<Kind>
        ensures { MatchOption result (length self.now.kinds.now ≤ place) (λ kind. (place < length self.now.kinds.now) × (kind.owner ≡ owner_of (slice_index self.now.kinds.now place)) × (kind.capture ≡ is_capture_kind (slice_index self.now.kinds.now place))) }
    {
        Kind::try_from(*self.kinds.get(place)?).ok()
    }

    // The moves of a place, if there is one.
    fn moves_of(&self, place: usize) -> Option<&[u32]>
        ensures { MatchOption result (length self.now.kinds.now ≤ place) (λ moves. (place < length self.now.kinds.now) × (moves.now ≡ moves_of self.now.starts.now self.now.moves.now place)) }
    {
        let [from, to, ..] = self.starts.get(place..)? else {
            return None;
        };
        Some(&self.moves[*from as usize..*to as usize])
    }
}

impl<'k, 's, 'm> Arena for Listing<'k, 's, 'm> {
    ghost game = { λ s. listed s.kinds.now s.starts.now s.moves.now };

    fn size(&self) -> usize {
        self.kinds.len()
    }

    fn owner(&self, place: usize) -> Option<Player> {
        Some(self.kind_of(place)?.owner)
    }

    fn is_capture(&self, place: usize) -> Option<bool> {
        Some(self.kind_of(place)?.capture)
    }

    fn move_count(&self, place: usize) -> Option<usize> {
        Some(self.moves_of(place)?.len())
    }

    fn move_at(&self, place: usize, position: usize) -> Option<usize> {
        Some(*self.moves_of(place)?.get(position)? as usize)
    }
}

// The refusals of a listing exclude each other and the lawful rows.
pub fn refusals_exclude()
    ensures { Exact }
{
    ()
}
