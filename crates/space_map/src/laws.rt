//! Laws of maps, over every list of entries.
ghost use Rattle.std.specs.Prelude.{ℕ, Bool, List, ◌++◌};
ghost use Rattle.space_map.specs.declared.entry.Entry.{Entry};
ghost use Rattle.space_map.specs.Entry.{spelling};
ghost use Rattle.space_map.specs.Updates.{IsUpdate, IsMapOf};

/// A map that leaves one set of a metaslab's sectors, with what leads from that set to another behind it, is a map that
/// leaves the other.
pub fn maps_are_updated()
    ensures { (sectors : ℕ) (old new : ℕ → Bool) (bytes : List ℕ) (es more : List Entry)
        → IsMapOf sectors bytes es old → IsUpdate sectors old new more
        → IsMapOf sectors (bytes ++ spelling more) (es ++ more) new }
{}
