ghost use Rattle.std.specs.Prelude.{◌≡◌};
ghost use Rattle.std.specs.Option.{ForSome};
ghost use Rattle.pmap_stretches.specs.Starting.{start_of_narrow};

/// The start of a statement: the first address of its span, and its number in the order of the text, from 0.
#[derive(Clone, Copy)]
pub struct Start {
    pub low: u128,
    pub number: usize,
}

/// A start in 8 bytes, as IPv4 statements have it.
#[derive(Clone, Copy)]
pub struct NarrowStart {
    pub low: u32,
    pub number: u32,
}

impl NarrowStart {
    /// Returns the narrow form of a start, or `None` if its address or its number needs more than 32 bits.
    #[inline(always)]
    pub fn new(start: Start) -> Option<NarrowStart>
        ensures { ForSome result (λ narrow. start_of_narrow narrow ≡ start) }
    {
        let low = u32::try_from(start.low).ok()?;
        let number = u32::try_from(start.number).ok()?;
        Some(NarrowStart { low, number })
    }
}
