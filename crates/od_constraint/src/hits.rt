//! The numbers of the texts that fit a value.
ghost use Rattle.std.specs.Prelude.{◌≡◌, slice_index_or, false};
ghost use Rattle.od_constraint.specs.Hits.{has_number};

/// The numbers of a field's texts that fit a value.
#[derive(Debug, Drop)]
pub(crate) enum Hits {
    /// One number, or none.
    One(Option<u32>),
    /// For each number from the first on, whether its text fits.
    Run { first: u32, fits: Vec<bool> },
}

impl Hits {
    /// Whether the text of a number fits.
    pub(crate) fn has(&self, number: u32) -> bool
        ensures { result ≡ has_number self.now number }
    {
        match self {
            Hits::One(None) => false,
            Hits::One(Some(hit)) => *hit == number,
            Hits::Run { first, fits } => {
                *first <= number && is_set(fits, (number - *first) as usize)
            }
        }
    }
}

/// Whether there is a true at a place.
fn is_set(fits: &[bool], place: usize) -> bool
    ensures { result ≡ slice_index_or fits.now place false }
{
    match fits.get(place) {
        Some(fits) => *fits,
        None => false,
    }
}
