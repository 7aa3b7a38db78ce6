//! A caller at its door.
ghost use mathlib.Core.List.{IsPrefix};
ghost use Rattle.std.specs.Prelude.{◌≡◌, Some, true, false};
ghost use Rattle.door_pool.specs.Passes.{IsPassOf, IsLadenPass, IfIn, IfShut, view_of, table_of};
ghost use Rattle.door_pool.specs.Views.{after_enter, after_found, after_leave};
ghost use Rattle.door_pool.specs.Steps.{Enters};

use crate::doors::{Doors, Pass};
use crate::held::Held;
use crate::steps::{BellOrCount, EnterDoor, LeaveDoor};
use std::snapshot::Snapshot;

/// What `enter` answers.
#[derive(Drop)]
pub enum Enter<H: Drop> {
    /// The hand that lay behind the door. The pass is in.
    In(H),
    /// The keeper took the door. The pass is out, and stays so.
    Shut {
        /// The door's word that this call found: 2.
        word: u64,
    },
}

impl<H: Held + Drop> Doors<H> {
    /// Goes in at the pass's door, and gives the hand that lies behind it: with the deed of its
    /// door, and told what the hand had been told that this pass left last. The only other answer
    /// is that the keeper took the door, which this call's own exchange found.
    pub fn enter(&self, pass: &mut Pass<H>) -> Enter<H>
        requires pass { IsPassOf self.now pass.old }
        requires outside { (view_of pass.old).inside ≡ false }
        ensures pass { IsPassOf self.now pass.new }

        ensures deed { IfIn result (λ hand. Some (H.deed hand) ≡ (view_of pass.old).deed) }
        ensures told { IfIn result (λ hand. H.told hand ≡ (view_of pass.old).told) }
        ensures entered { IfIn result (λ _. view_of pass.new ≡ after_enter (view_of pass.old)) }

        ensures shut { IfShut result (λ word. word ≡ 2) }
        ensures found { IfShut result (λ w. view_of pass.new ≡ after_found (view_of pass.old) w) }
    {
        let door = pass.door;
        let found = self.try_enter(pass);
        if found == 0 {
            match self.table.shared.exchange(&mut pass.seat, door, None) {
                Some(hand) => Enter::In(hand),
                None => unreachable!(),
            }
        } else {
            Enter::Shut { word: found }
        }
    }

    /// Tries the pass's door, and returns the word found there. At 0 the pass is in, and the slot
    /// with the hand is out with it.
    fn try_enter(&self, pass: &mut Pass<H>) -> u64
        requires pass { IsPassOf self.now pass.old }
        requires outside { (view_of pass.old).inside ≡ false }
        ensures table { pass.new.seat.table_id ≡ pass.old.seat.table_id }
        ensures door { pass.new.door ≡ pass.old.door }
        ensures tried { Enters H.deed H.told pass.old.seat.me result pass.new.seat.me }
    {
        let word = pass.door + 2;
        self.table
            .shared
            .compare_exchange::<EnterDoor<H>>(&mut pass.seat, word, 0, 1)
    }

    /// Lays a hand back behind the pass's door, and goes out. It asks for a hand with the deed of
    /// the one that was there, whose told list begins with that one's.
    pub fn leave(&self, pass: &mut Pass<H>, hand: H)
        requires pass { IsPassOf self.now pass.old }
        requires inside { (view_of pass.old).inside ≡ true }
        requires deed { Some (H.deed hand) ≡ (view_of pass.old).deed }
        requires grows { IsPrefix (view_of pass.old).told (H.told hand) }
        ensures pass { IsPassOf self.now pass.new }
        ensures left { view_of pass.new ≡ after_leave (view_of pass.old) (H.told hand) }
    {
        let laid = Snapshot::of(&hand);
        self.lay_back(pass, hand);
        self.go_out(pass, &laid);
    }

    /// Puts a hand into the slot that is out with the pass.
    fn lay_back(&self, pass: &mut Pass<H>, hand: H)
        requires pass { IsPassOf self.now pass.old }
        requires inside { (view_of pass.old).inside ≡ true }
        requires deed { Some (H.deed hand) ≡ (view_of pass.old).deed }
        ensures laden { IsLadenPass H.deed (table_of self.now) pass.new hand }
        ensures same { view_of pass.new ≡ view_of pass.old }
    {
        let door = pass.door;
        let was = self.table.shared.exchange(&mut pass.seat, door, Some(hand));
        drop(was);
    }

    /// Brings the slot home with the hand that was laid back, and goes out.
    fn go_out(&self, pass: &mut Pass<H>, laid: &Snapshot<H>)
        requires laden { IsLadenPass H.deed (table_of self.now) pass.old laid.now.value }
        ensures pass { IsPassOf self.now pass.new }
        ensures left { view_of pass.new ≡ after_leave (view_of pass.old) (H.told laid.now.value) }
    {
        let word = pass.door + 2;
        self.table
            .shared
            .store::<LeaveDoor<H>>(&mut pass.seat, word, 0);
    }

    /// Rings the bell. What the keeper then hears no clause says.
    pub fn ring(&self, pass: &mut Pass<H>)
        requires pass { IsPassOf self.now pass.old }
        ensures pass { IsPassOf self.now pass.new }
        ensures same { view_of pass.new ≡ view_of pass.old }
    {
        self.table.shared.store::<BellOrCount>(&mut pass.seat, 0, 1);
    }

    /// Counts the caller among those that have ended. A caller calls it once; no clause says so,
    /// nor what the count is.
    pub fn done(&self, pass: &mut Pass<H>)
        requires pass { IsPassOf self.now pass.old }
        ensures pass { IsPassOf self.now pass.new }
        ensures same { view_of pass.new ≡ view_of pass.old }
    {
        self.table
            .shared
            .fetch_add::<BellOrCount>(&mut pass.seat, 1, 1);
    }
}
