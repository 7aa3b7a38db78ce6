//! What each kind of step tells its seat.
use crate::held::Held;
use crate::view::View;
use atomic_table::Play;
use std::marker::PhantomData;

/// An exchange by which a pass goes in: 0 for 1 at its door.
pub struct EnterDoor<H> {
    hand: PhantomData<H>,
}

impl<H: Held> Play<Option<H>, View<H::Deed, H::Told>> for EnterDoor<H> {
    ghost use Rattle.door_pool.specs.Steps.{Enters};

    ghost then = { λ st. Enters H.deed H.told };
}

/// A store by which a pass goes out: 0 at its door.
pub struct LeaveDoor<H> {
    hand: PhantomData<H>,
}

impl<H: Held> Play<Option<H>, View<H::Deed, H::Told>> for LeaveDoor<H> {
    ghost use Rattle.door_pool.specs.Steps.{Leaves};

    ghost then = { λ st. Leaves H.told };
}

/// An exchange by which the keeper takes a door: 0 for 2.
pub struct TakeDoor<H> {
    hand: PhantomData<H>,
}

impl<H: Held> Play<Option<H>, View<H::Deed, H::Told>> for TakeDoor<H> {
    ghost use Rattle.door_pool.specs.Steps.{Takes};

    ghost then = { λ st. Takes H.deed st.word };
}

/// A step on the bell or on the count of callers that have ended. It tells nothing.
pub struct BellOrCount;

impl<S, V> Play<S, V> for BellOrCount {
    ghost use Rattle.std.specs.Prelude.{◌≡◌};

    ghost then = { λ st m found after. after ≡ m };
}
