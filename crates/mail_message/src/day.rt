// Days of messages and of search keys.
ghost use Rattle.std.specs.Prelude.{◌≡◌};
ghost use Rattle.mail_message.specs.Days.{day_on, is_on_calendar, is_before};

/// A day (RFC 9051, 9: date). Days are compared by year, month and day alone: whatever stands for the time and the zone of a
/// message counts for nothing.
#[derive(Clone, Copy, Debug, PartialEq, Eq)]
pub struct Day {
    /// From 1 to 31.
    pub day: u8,
    /// From 1 to 12.
    pub month: u8,
    /// Of four digits.
    pub year: u16,
}

impl Day {
    /// The day of a calendar. `None` exactly where no date text has it: a day from 1 to 31, in whichever month, a month from 1 to
    /// 12, a year of at most four digits.
    pub fn new(day: u8, month: u8, year: u16) -> Option<Day>
        ensures { result ≡ day_on day month year }
    {
        let day = Day { day, month, year };
        if day.is_on_calendar() {
            Some(day)
        } else {
            None
        }
    }

    fn is_on_calendar(self) -> bool
        ensures { result ≡ is_on_calendar self }
    {
        (1..=31).contains(&self.day) && (1..=12).contains(&self.month) && self.year <= 9_999
    }

    /// Whether this day is earlier than another.
    pub fn is_before(self, other: Day) -> bool
        ensures { result ≡ is_before self other }
    {
        if self.year != other.year {
            self.year < other.year
        } else if self.month != other.month {
            self.month < other.month
        } else {
            self.day < other.day
        }
    }
}
