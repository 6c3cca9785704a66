#![tactic(auto)]
// Where a frame of an object stands, told by where its name begins: what is known of names that stand twice is where the second begins, and a refusal has the
// frame's place ("The write list").
ghost use Rattle.std.specs.Prelude.{◌≡◌};
ghost use Rattle.used.specs.Place.{frame_place};

// The first frame of the part whose name begins at a place or behind it; where the frames end, if none does.
#[tactic(auto, using(crate::proofs::PlaceReturns::place_laws))]
pub fn place_of(part: &[u8], left: u32, begin: usize) -> usize
    ensures { result ≡ frame_place left part.now begin }
{
    let mut at = 0;
    while at < part.len() {
        let Some(name) = passing::name_at(part, at, left) else {
            return at;
        };
        if begin <= name.begin {
            return at;
        }
        at = name.next;
    }
    at
}
