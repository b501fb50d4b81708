//! What indexes of the edges of a table hold.
ghost use Rattle.std.specs.Prelude.{◌≡◌, length};

/// Of each location the first edge that leaves it, and of each edge the next one from the same location.
#[derive(Clone, Copy)]
pub struct Index {
    pub(crate) first: [u16; 128],
    pub(crate) next: [u16; 2048],
    ghost first_places: { length first ≡ 128 },
    ghost next_places: { length next ≡ 2048 },
}

/// Of each signal the first edge that takes it, and of each input the next one of the same signal.
#[derive(Clone, Copy)]
pub struct Inputs {
    pub(crate) first: [u16; 64],
    pub(crate) next: [u16; 2048],
    ghost first_places: { length first ≡ 64 },
    ghost next_places: { length next ≡ 2048 },
}
