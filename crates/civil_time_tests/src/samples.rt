use expressions::Civil;

/// What a calendar and a clock show: year, month and day, and hour, minute and second.
pub type Clock = ((u16, u8, u8), (u8, u8, u8));

/// The civil date and time that they show.
pub fn civil(clock: Clock) -> Civil {
    let ((year, month, day), (hour, minute, second)) = clock;
    Civil {
        year,
        month,
        day,
        hour,
        minute,
        second,
    }
}
