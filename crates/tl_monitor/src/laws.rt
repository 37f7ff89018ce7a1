//! What each call makes of the watches of the monitors that are attached, under each number, and laws about those that are out. Each
//! is the contract of a function that does nothing.

ghost use Rattle.std.specs.Prelude.{◌≡◌, ◌<◌, ℕ, cond, None, Some};
ghost use Rattle.std.specs.BTreeMap.{is_at};
ghost use Rattle.std.specs.Option.{option_map};
ghost use Rattle.std.specs.Ordering.{nat_cmp};
ghost use Rattle.tl_monitor.specs.declared.away.Away.{Away};
ghost use Rattle.tl_monitor.specs.Boxes.{BoxesData, IsBoxes, place_at, held_at, away_at, attached_watch, departed, placed_at, attached_at, given_back_at, retuned_at, detached_at, taken_at, brought_back, first_out};
ghost use Rattle.tl_monitor.specs.Places.{Place, Here, leaving};
ghost use Rattle.tl_definitions.specs.Watching.{retuned};
ghost use Rattle.tl_monitor.specs.Held.{Held};

/// A monitor that comes is attached with its watch, and all others stay.
pub fn attach_sets_the_watch()
    ensures { (b : BoxesData) (m n : ℕ) (held : Held)
        → attached_watch n (attached_at m held b) ≡ cond (is_at (nat_cmp n) m) (Some held.watch) (attached_watch n b) }
{}

/// A monitor that is given back is no longer attached, and all others stay.
pub fn give_back_ends_the_watch()
    ensures { (b : BoxesData) (m n : ℕ) (held : Held) → IsBoxes b → held_at m b.slots ≡ Some held
        → attached_watch n (given_back_at m b) ≡ cond (is_at (nat_cmp n) m) None (attached_watch n b) }
{}

/// A retune gives the watch of its number the limit, whether the monitor is here or out, and leaves all others.
pub fn retune_retunes_the_watch()
    ensures { (b : BoxesData) (m n limit : ℕ)
        → attached_watch n (retuned_at m limit b) ≡ cond (is_at (nat_cmp n) m) (option_map (λ w. retuned w limit) (attached_watch m b)) (attached_watch n b) }
{}

/// Behind a detach no monitor of its number is attached, even if one is still out, and all others stay.
pub fn detach_ends_the_watch()
    ensures { (b : BoxesData) (m n edit : ℕ) → IsBoxes b
        → attached_watch n (detached_at m edit b) ≡ cond (is_at (nat_cmp n) m) None (attached_watch n b) }
{}

/// A monitor that goes out stays attached, with its watch.
pub fn take_box_keeps_all_watches()
    ensures { (b : BoxesData) (m n ticket : ℕ) → attached_watch n (taken_at m ticket b) ≡ attached_watch n b }
{}

/// A monitor that comes back with the watch that it left with has the watch that it was to have, if it is attached still.
pub fn bring_back_keeps_all_watches()
    ensures { (b : BoxesData) (m n : ℕ) (held : Held) (away : Away) → IsBoxes b → away_at m b.slots ≡ Some away → away.taken ≡ held.watch
        → attached_watch n (brought_back m held b) ≡ attached_watch n b }
{}

/// A monitor that is put back as it went out keeps its watch, whatever its tally is now.
pub fn put_here_keeps_all_watches()
    ensures { (b : BoxesData) (m n ticket : ℕ) (held : Held) → away_at m b.slots ≡ Some (leaving ticket held)
        → attached_watch n (placed_at m (Here held) b) ≡ attached_watch n b }
{}

/// A monitor that comes leaves those that are out.
pub fn attach_keeps_all_departures()
    ensures { (b : BoxesData) (m n : ℕ) (held : Held) → place_at m b.slots ≡ None → departed n (attached_at m held b) ≡ departed n b }
{}

/// A monitor that is given back leaves those that are out.
pub fn give_back_keeps_all_departures()
    ensures { (b : BoxesData) (m n : ℕ) → IsBoxes b → departed n (given_back_at m b) ≡ departed n b }
{}

/// A retune leaves the ticket of one that is out, and the watch that it left with.
pub fn retune_keeps_all_departures()
    ensures { (b : BoxesData) (m n limit : ℕ) → departed n (retuned_at m limit b) ≡ departed n b }
{}

/// A detach leaves the ticket of one that is out, and the watch that it left with.
pub fn detach_keeps_all_departures()
    ensures { (b : BoxesData) (m n edit : ℕ) → IsBoxes b → departed n (detached_at m edit b) ≡ departed n b }
{}

/// A monitor that goes out is out under its ticket, with the watch that it has, and all others stay.
pub fn take_box_sets_the_departure()
    ensures { (b : BoxesData) (m n ticket : ℕ) (held : Held) → held_at m b.slots ≡ Some held
        → departed n (taken_at m ticket b) ≡ cond (is_at (nat_cmp n) m) (Some (ticket, held.watch)) (departed n b) }
{}

/// What is known of a monitor that goes out.
pub fn taken_box_is_out()
    ensures { (b : BoxesData) (m ticket : ℕ) (held : Held) → held_at m b.slots ≡ Some held
        → away_at m (taken_at m ticket b).slots ≡ Some (leaving ticket held) }
{}

/// A monitor that comes back is no longer out, and all others stay.
pub fn bring_back_ends_the_departure()
    ensures { (b : BoxesData) (m n : ℕ) (held : Held) (away : Away) → IsBoxes b → away_at m b.slots ≡ Some away
        → departed n (brought_back m held b) ≡ cond (is_at (nat_cmp n) m) None (departed n b) }
{}

/// A monitor that comes under a new number and is given back leaves all as it was.
pub fn give_back_undoes_attach()
    ensures { (b : BoxesData) (m : ℕ) (held : Held) → place_at m b.slots ≡ None → given_back_at m (attached_at m held b) ≡ b }
{}

/// Of two places that one number gets the second stays.
pub fn last_place_stays()
    ensures { (b : BoxesData) (m : ℕ) (p q : Place) → placed_at m q (placed_at m p b) ≡ placed_at m q b }
{}

/// A number under which no monitor is attached and none is out has no place.
pub fn unknown_number_has_no_place()
    ensures { (b : BoxesData) (m : ℕ) → attached_watch m b ≡ None → away_at m b.slots ≡ None → place_at m b.slots ≡ None }
{}

/// Where none is the first that is out, none is out.
pub fn none_is_out()
    ensures { (b : BoxesData) (m : ℕ) → first_out b.slots ≡ None → away_at m b.slots ≡ None }
{}

/// The first that is out is out, and no lower number is.
pub fn first_is_the_lowest()
    ensures { (b : BoxesData) (n : ℕ) → IsBoxes b → first_out b.slots ≡ Some n
        → ((away : Away) × (away_at n b.slots ≡ Some away)) × ((m : ℕ) → m < n → away_at m b.slots ≡ None) }
{}
