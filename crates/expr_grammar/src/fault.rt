//! Why a text is no expression.
ghost use Rattle.std.specs.Prelude.{◌≡◌};

/// Why a text is no expression. Faults are looked for in the order of their numbers: the shape of the
/// whole text; then each piece from left to right, and behind the last item of a cron's field that
/// field's mix; and then the two day fields.
///
/// | number | the fault | the place |
/// |---|---|---|
/// | 1 | the text has none of the three shapes | 0 |
/// | 2 | an item, a value or a unit has no spelling of its field | its first byte |
/// | 3 | a number is out of range | the first byte of its item, word or group |
/// | 4 | a cron's field has several items, one of which must stand alone | the field's first byte |
/// | 5 | neither day field is `?` | the first byte of day of week |
/// | 6 | both day fields are `?` | the first byte of day of week |
#[derive(Debug, Clone, Copy, PartialEq, Eq)]
pub struct ExprFault {
    /// Which fault it is, by its number in the table.
    pub number: u8,
    /// Where the fault is, in bytes from the text's first byte.
    pub at: usize,
}

impl ExprFault {
    /// The text has none of the three shapes.
    pub(crate) const SHAPE: ExprFault = ExprFault { number: 1, at: 0 };

    pub(crate) fn bad_number(at: usize) -> ExprFault
        ensures { result ≡ record { number = 2; at = at } }
    {
        ExprFault { number: 2, at }
    }

    pub(crate) fn out_of_range(at: usize) -> ExprFault
        ensures { result ≡ record { number = 3; at = at } }
    {
        ExprFault { number: 3, at }
    }

    pub(crate) fn bad_mix(at: usize) -> ExprFault
        ensures { result ≡ record { number = 4; at = at } }
    {
        ExprFault { number: 4, at }
    }

    pub(crate) fn both_days(at: usize) -> ExprFault
        ensures { result ≡ record { number = 5; at = at } }
    {
        ExprFault { number: 5, at }
    }

    pub(crate) fn no_days(at: usize) -> ExprFault
        ensures { result ≡ record { number = 6; at = at } }
    {
        ExprFault { number: 6, at }
    }
}
