// What must be believed of a batch of requests (document 02, Item 2): the declared type here, the definitions and the claims
// in specs/. Proofs of the claims are in proofs/. The one call makes a batch's own refusal.
#![tactic(auto)]

ghost use Rattle.std.specs.Prelude.{◌≡◌};
ghost use Rattle.model.specs.Calls.{numbered};
ghost use Rattle.batches.specs.Place.{place_in};

use model::Refusal;

// Why a batch is refused, and the place that its answer tells. The refusal tells what the place is: of a bad mapping its
// own, of a refusal that a request gets in its turn the request's, else 0.
#[derive(Clone, Copy)]
pub struct BatchRefusal {
    pub refusal: Refusal,
    pub place: usize,
    pub ghost own: { place_in refusal place ≡ place },
}

// The batch's own refusals, as `?` passes them on.
impl From<Refusal> for BatchRefusal {
    ghost from_gives = { λ w b. (b.refusal ≡ w) × (b.place ≡ (numbered w).1) };

    fn from(refusal: Refusal) -> BatchRefusal {
        BatchRefusal {
            refusal,
            place: rules::refusal_place(refusal),
        }
    }
}
