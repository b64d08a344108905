// Laws about the definitions of frames, and of what is alike.
ghost use Rattle.code.specs.Newest.{PlacesAreNewest, TopNounsAreOutside};
ghost use Rattle.code.specs.Sameness.{pattern_alike, alike, all_alike, methods_alike, TellsEqual};

/// A place in a frame is that of the newest name of its spelling, and a name that is found outside is not in the frame.
pub fn places_are_newest()
    ensures inside { PlacesAreNewest }
    ensures outside { TopNounsAreOutside }
{}

/// Patterns that are alike are equal, and so are trees, blocks and methods.
pub fn what_is_alike_is_equal()
    ensures patterns { TellsEqual pattern_alike }
    ensures trees { TellsEqual alike }
    ensures blocks { TellsEqual all_alike }
    ensures methods { TellsEqual methods_alike }
{}
