// What the checks find.
ghost use Rattle.std.specs.Prelude.{◌≡◌};

use magnetar_field::refusal::Refusal;

// The first check that does not pass, and how many events of the schedule come before it.
#[derive(Clone, Copy, Debug, PartialEq, Eq)]
pub struct Failure {
    pub check: Refusal,
    pub events: usize,
}

// A refusal stops a run before any event.
impl From<Refusal> for Failure {
    ghost from_gives = { λ r f. f ≡ record { check = r; events = 0 } };

    fn from(refusal: Refusal) -> Failure {
        Failure {
            check: refusal,
            events: 0,
        }
    }
}
