//! Times in whole seconds.

ghost use Rattle.std.specs.Prelude.{◌≡◌, ◌<◌, ◌≤◌, ◌^◌, ◌≤ℤ◌, length, pos, true};
ghost use Rattle.jiff_core.specs.Date.{epoch_day};
ghost use Rattle.std.specs.List.{list_all};
ghost use Rattle.std.specs.Char.{is_ascii_digit};
ghost use Rattle.std.specs.Str.Parse.{digits_value};
ghost use Rattle.row_types.specs.TimeTexts.{day_number, has_form, has_marks, has_numbers, second_of_day, time_at, time_of, time_text, two_digits};
ghost use Rattle.row_types.specs.CivilForms.{IsClockAt, IsDateAt};
ghost use Rattle.row_types.specs.Times.{IsTime};

use jiff_core::civil;
use std::marker::Model;

/// How many seconds a day has.
const DAY_SECONDS: i64 = 86_400;

/// How many days lie between -9999-01-01, the calendar's first day, and 1970-01-01.
const DAYS_BEFORE_1970: i64 = 4_371_587;

/// A time of the years 0001 to 9999, in whole seconds since 1970-01-01 00:00:00. Clauses see the seconds.
#[derive(Clone, Copy, Debug, PartialEq, Eq)]
pub struct Time {
    seconds: i64,
}

impl Model for Time {
    ghost use Rattle.std.specs.Prelude.{ℤ};
    ghost use Rattle.row_types.specs.Times.{IsTime};

    ghost Value = { ℤ };

    ghost view = { λ time. time.seconds };

    ghost invariant = { λ time. IsTime time.seconds };

    ghost inverse = { λ seconds. record { seconds = seconds } };
}

impl Time {
    /// The time so many seconds after 1970-01-01 00:00:00, before it where they are negative. A condition is that
    /// it is of the years 0001 to 9999.
    pub fn from_seconds(seconds: i64) -> Time
        requires { IsTime seconds }
        ensures { result ≡ seconds }
    {
        Time { seconds }
    }

    /// The seconds since 1970-01-01 00:00:00.
    pub fn seconds(self) -> i64
        ensures seconds { result ≡ self }
        ensures range { IsTime result }
    {
        self.seconds
    }

    /// The time that the text names, `YYYY-MM-DD HH:MM:SS`. None where it has another form, or names no date of the
    /// years 0001 to 9999 or no time of day. It takes no memory.
    pub fn from_text(text: &[u8]) -> Option<Time>
        ensures { result ≡ time_of text.now }
    {
        if !has_form(text) {
            return None;
        }
        time_at(
            number(&text[0..4]),
            number(&text[5..7]),
            number(&text[8..10]),
            number(&text[11..13]),
            number(&text[14..16]),
            number(&text[17..19]),
        )
    }

    /// The text of the time, `YYYY-MM-DD HH:MM:SS`. It takes no memory.
    pub fn to_text(self) -> [u8; 19]
        ensures { result ≡ time_text self }
    {
        let date = self.date();
        let year = date.year as u16;
        let [y0, y1] = two_digits((year / 100) as u8);
        let [y2, y3] = two_digits((year % 100) as u8);
        let [m0, m1] = two_digits(date.month);
        let [d0, d1] = two_digits(date.day);
        let second = self.second_of_day();
        let [h0, h1] = two_digits((second / 3600) as u8);
        let [n0, n1] = two_digits((second / 60 % 60) as u8);
        let [s0, s1] = two_digits((second % 60) as u8);
        [
            y0, y1, y2, y3, b'-', m0, m1, b'-', d0, d1, b' ', h0, h1, b':', n0, n1, b':', s0, s1,
        ]
    }

    /// The date of the time's day.
    pub(crate) fn date(self) -> civil::Date
        ensures day { epoch_day result ≡ day_number self }
        ensures year { pos 1 ≤ℤ result.year }
    {
        let day = self.seconds.div_euclid(DAY_SECONDS);
        civil::Date::from_days_since_min((day + DAYS_BEFORE_1970) as u32)
    }

    fn second_of_day(self) -> u32
        ensures value { result ≡ second_of_day self }
        ensures bound { result < 86400 }
    {
        self.seconds.rem_euclid(DAY_SECONDS) as u32
    }
}

fn two_digits(number: u8) -> [u8; 2]
    requires { number < 100 }
    ensures { result ≡ two_digits number }
{
    [b'0' + number / 10, b'0' + number % 10]
}

fn time_at(year: u16, month: u16, day: u16, hour: u16, minute: u16, second: u16) -> Option<Time>
    requires date { (year < 10000) × (month < 100) × (day < 100) }
    requires clock { (hour < 100) × (minute < 100) × (second < 100) }
    ensures { result ≡ time_at year month day hour minute second }
{
    let date = date_at(year, month, day)?;
    let time = clock_at(hour, minute, second)?;
    Some(Time {
        seconds: civil::DateTime { date, time }.to_second(),
    })
}

fn date_at(year: u16, month: u16, day: u16) -> Option<civil::Date>
    requires { (year < 10000) × (month < 100) × (day < 100) }
    ensures { IsDateAt year month day result }
{
    if year < 1 {
        return None;
    }
    match civil::Date::new(year as i16, month as i8, day as i8) {
        Ok(date) => Some(date),
        Err(_) => None,
    }
}

fn clock_at(hour: u16, minute: u16, second: u16) -> Option<civil::Time>
    requires { (hour < 100) × (minute < 100) × (second < 100) }
    ensures { IsClockAt hour minute second result }
{
    match civil::Time::new(hour as i8, minute as i8, second as i8, 0) {
        Ok(time) => Some(time),
        Err(_) => None,
    }
}

fn has_form(text: &[u8]) -> bool
    ensures { result ≡ has_form text.now }
{
    has_marks(text) && has_numbers(text)
}

fn has_marks(text: &[u8]) -> bool
    ensures { result ≡ has_marks text.now }
{
    text.len() == 19
        && text[4] == b'-'
        && text[7] == b'-'
        && text[10] == b' '
        && text[13] == b':'
        && text[16] == b':'
}

fn has_numbers(text: &[u8]) -> bool
    requires { length text.now ≡ 19 }
    ensures { result ≡ has_numbers text.now }
{
    are_digits(&text[0..4])
        && are_digits(&text[5..7])
        && are_digits(&text[8..10])
        && are_digits(&text[11..13])
        && are_digits(&text[14..16])
        && are_digits(&text[17..19])
}

/// Whether each byte is a digit.
pub(crate) fn are_digits(bytes: &[u8]) -> bool
    ensures { result ≡ list_all is_ascii_digit bytes.now }
{
    bytes.iter().all(|byte| byte.is_ascii_digit())
}

fn number(digits: &[u8]) -> u16
    requires digits { list_all is_ascii_digit digits.now ≡ true }
    requires short { length digits.now ≤ 4 }
    ensures value { result ≡ digits_value 10 digits.now }
    ensures bound { result < 10 ^ length digits.now }
{
    let mut number = 0;
    for digit in digits {
        number = number * 10 + u16::from(*digit - b'0');
    }
    number
}
