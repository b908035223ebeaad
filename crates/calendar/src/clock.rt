// The milliseconds of a serial.
ghost use Rattle.std.specs.Prelude.{◌≡◌, Bool, ◌^◌, ◌<◌, ◌&&◌, is_ok, nat_le, IfOk};
ghost use Rattle.calendar.specs.Calendar.{last_day};
ghost use Rattle.calendar.specs.Bounds.{Under-prop};
ghost use Rattle.calendar.specs.Clock.{Under, whole_part, fraction_times, half_up, millis_since_start};
ghost use Rattle.calendar.specs.Serial.{day_of, accepted};

use crate::civil::DateFault;
use std::num::saturating_f64_to_u64;

/// Every day of both systems lies before this serial.
const END_OF_CALENDAR: f64 = 2_958_466.0;

/// The time since some start, in days, seconds or milliseconds, with its fraction.
#[derive(Clone, Copy)]
pub(crate) struct Elapsed {
    amount: f64,
    ghost bounded: { Under amount (2 ^ 32) } by { Under-prop amount (2 ^ 32) },
}

impl Elapsed {
    /// The days since day 0, minus zero as zero; refused below 0, for not-a-number, and from the end of the calendar on.
    #[tactic(auto, using(crate::proofs::Acceptance::by_day, crate::proofs::Acceptance::same_millis))]
    pub(crate) fn from_serial(serial: f64) -> Result<Elapsed, DateFault>
        ensures accepts { (is1904 : Bool) → accepted is1904 serial ≡ (is_ok result && nat_le (day_of serial) (last_day is1904)) }
        ensures counts { IfOk result (λ days. millis_since_start days.amount ≡ millis_since_start serial) }
    {
        // Not-a-number is not at least 0; minus zero is.
        if !(serial >= 0.0) || serial >= END_OF_CALENDAR {
            return Err(DateFault::OutsideCalendar);
        }
        Ok(Elapsed {
            amount: serial.abs(),
        })
    }

    /// What is left without the fraction.
    #[tactic(auto, using(crate::proofs::Fractions::whole_part_lem, crate::proofs::Fractions::whole_bound))]
    fn whole_part(self) -> u64
        ensures value { result ≡ whole_part self.amount }
        ensures bound { result < 2 ^ 32 }
    {
        saturating_f64_to_u64(self.amount)
    }

    /// The fraction in a smaller unit, of which `units` make one. The fraction is exact, so the product alone is rounded.
    fn fraction_times(self, units: u32) -> Elapsed
        ensures { result.amount ≡ fraction_times self.amount units }
    {
        Elapsed {
            amount: self.amount.fract() * f64::from(units),
        }
    }

    /// The nearest whole number, halves up.
    fn half_up(self) -> u64
        ensures value { result ≡ half_up self.amount }
        ensures bound { result < 2 ^ 53 }
    {
        saturating_f64_to_u64(self.amount.round())
    }

    /// All milliseconds of these days. Counted together, 1,000 milliseconds carry to the second and 86,400 seconds to the day.
    pub(crate) fn millis(self) -> u64
        ensures { result ≡ millis_since_start self.amount }
    {
        let seconds = self.fraction_times(86_400);
        let millis = seconds.fraction_times(1_000);
        (self.whole_part() * 86_400 + seconds.whole_part()) * 1_000 + millis.half_up()
    }
}
