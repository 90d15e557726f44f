//! The laws of groups and of worlds. Each function is empty, and its contract is the law.

ghost use Rattle.std.specs.Prelude.{◌≡◌, ℕ, ◌<◌, true, List};
ghost use Rattle.msl_base.specs.Covers.{Balanced, Covers};
ghost use Rattle.msl_core.specs.Groups.{Enabled, Group, Kept, after, leaves, new_group, shut_of, splits_of};
ghost use Rattle.msl_core.specs.Worlds.{CanHappen, OverIsQuiet, Places, Runs, Sound, StayOver, happened, new_world};
ghost use Rattle.msl_core.specs.declared.event.Event.{Event};
ghost use Rattle.msl_core.specs.declared.event.Move.{Move};

/// The facts hold of a new group.
pub fn starts()
    ensures { (n start : ℕ) → start < n → Kept (new_group n start) }
{}

/// Each move that may happen keeps the facts.
pub fn keeps()
    ensures { (g : Group) (m : Move) → Kept g → Enabled g m → Kept (after g m) }
{}

/// Splits and leaves are balanced, and where a group is over, all its leaves are shut.
pub fn covers()
    ensures balanced { (g : Group) → Kept g → Balanced (splits_of g) (leaves g) }
    ensures covers { (g : Group) → Kept g → g.over ≡ true → Covers (splits_of g) (shut_of g) }
{}

/// The facts hold of a new world, and each event that may happen keeps them.
pub fn worlds_are_sound()
    ensures starts { (n start : ℕ) → start < n → Sound (new_world n start) }
    ensures keeps { (w : Places) (e : Event) → Sound w → CanHappen w e → Sound (happened w e) }
{}

/// After every list of events from a new world, a group that is over is quiet.
pub fn over_is_quiet()
    ensures sound { (n start : ℕ) (es : List Event) (w : Places) → start < n → Runs (new_world n start) es w → Sound w }
    ensures quiet { (n start : ℕ) (es : List Event) (w : Places) → start < n → Runs (new_world n start) es w → OverIsQuiet w }
{}

/// A group that is over stays over, and quiet, after every further list of events.
pub fn over_stays()
    ensures over { (w v : Places) (es : List Event) → Sound w → Runs w es v → StayOver w v }
    ensures quiet { (w v : Places) (es : List Event) → Sound w → Runs w es v → OverIsQuiet v }
{}
