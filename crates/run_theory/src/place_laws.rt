// The law of places, as the contract of a function that does nothing.

ghost use Rattle.run_theory.specs.Places.{PlacesCount};

/// Places are what a reader counts: lines by the newlines in front, columns by the bytes of the line.
pub fn places_count()
    ensures { PlacesCount }
{}
