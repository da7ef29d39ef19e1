ghost use Rattle.pf_desk.specs.Horizon.{HorizonIsOutOfSight};
ghost use Rattle.pf_desk.specs.Room.{RoomGoesOn, RoomIsKept};

/// A history whose replies do not show the horizon is as legal at the wide one, and its last state has the same run.
pub fn the_horizon_is_out_of_sight()
    ensures { HorizonIsOutOfSight }
{}

/// A scenario whose settings are enough stays so through every edit but one that brings a limit which leaves too few
/// processors in use to carry the cap.
pub fn room_is_kept()
    ensures { RoomIsKept }
{}

/// Commands that bring no limit which leaves too few processors in use lead to a scenario whose settings are enough, from one
/// whose settings are.
pub fn room_goes_on()
    ensures { RoomGoesOn }
{}
