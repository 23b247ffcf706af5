ghost use Rattle.std.specs.Prelude.{◌<◌};

/// Where the entry or the mapping of a page with these low bits was found last. It is only a guess,
/// which is compared before it is used.
#[derive(Drop)]
pub(crate) struct Hints {
    places: [u8; 64],
}

impl Hints {
    /// The first place for each page.
    pub(crate) fn new() -> Self {
        Hints { places: [0; 64] }
    }

    /// The place to look at first.
    pub(crate) fn guess(&self, page: u64) -> usize {
        self.places[(page % 64) as usize] as usize
    }

    /// Keeps the place of a page.
    pub(crate) fn keep(&mut self, page: u64, place: usize)
        requires { place < 64 }
    {
        self.places[(page % 64) as usize] = place as u8;
    }
}
