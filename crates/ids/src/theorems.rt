// What holds of names, of keys and of references.
ghost use Rattle.ids.specs.CellKeys.{SameIsEqual};
ghost use Rattle.ids.specs.NameLaws.{EventsTellApart, NumbersTellApart, SameNamesAreOne};
ghost use Rattle.ids.specs.References.{SameReferenceIsEqual};

/// Keys of cells that are the same are one key. A name is that of one thing: what different events made has different names, and so has
/// what one event made of a kind, by its number. References that are the same are one reference.
pub fn keys_are_lawful()
    ensures same_is_equal { SameIsEqual }
    ensures events_tell_apart { EventsTellApart }
    ensures numbers_tell_apart { NumbersTellApart }
    ensures same_names_are_one { SameNamesAreOne }
    ensures same_reference_is_equal { SameReferenceIsEqual }
{}
