// Slots: a place, and the category that is shown next.
ghost use Rattle.std.specs.Prelude.{◌≡◌, ◌+◌, ◌*◌};

/// The slot of a place and the category that is shown next.
pub fn slot(place: u32, cats: u8, cat: u8) -> usize
    ensures { result ≡ place * cats + cat }
{
    place as usize * cats as usize + cat as usize
}
