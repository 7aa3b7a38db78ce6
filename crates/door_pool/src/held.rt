//! What lies behind a door.
ghost use Rattle.std.specs.Prelude.{List};

/// What may lie behind a door. Its two ghost members are all that doors know of a hand.
pub trait Held {
    /// What stays of a hand as long as its doors do. No value of this type is made.
    type Deed;
    /// An entry of the list of what a hand was told. No value of this type is made.
    type Told;

    // The same whenever the hand is left behind its door.
    ghost deed: { Self → Self.Deed };
    // Empty when the doors are made. Each list that is left begins with the one left before.
    ghost told: { Self → List Self.Told };
}
