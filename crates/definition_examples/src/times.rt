//! Times, as GNU `date` prints them, and groups by time.
#![tactic(auto, unfolding(crate::specs::Rows::opened))]

ghost use Rattle.definition_examples.specs.Reports.{unlabelled};
ghost use Rattle.definition_examples.specs.Rows.{tcp, tcp_back};
ghost use Rattle.definition_examples.specs.Times.{by_time, days, hours, minutes, quarters, start_text};
ghost use Rattle.flow_uniq.specs.Times.{minutes_unit};
ghost use Rattle.flow_uniq.specs.declared.field.KeyField.TheVariants.{Number};
ghost use Rattle.flow_rows.specs.declared.number.Number.TheVariants.{Protocol};
ghost use Rattle.flow_uniq.specs.declared.field.Precision.TheVariants.{Minute};
ghost use Rattle.std.specs.Prelude.{◌≡◌, ◌∷◌, [], codes, false, None, Some, true};
ghost use Rattle.utc_text.specs.Texts.{day_text, hour_text, is_leap, minute_text};

/// Days are counted from 1970-01-01 on, in the Gregorian calendar.
pub fn a_day_has_a_date()
    ensures first { day_text 0 ≡ Some (codes "1970-01-01") }
    ensures end_of_a_month { day_text 58 ≡ Some (codes "1970-02-28") }
    ensures march { day_text 59 ≡ Some (codes "1970-03-01") }
    ensures leap_day { day_text 789 ≡ Some (codes "1972-02-29") }
    ensures after_it { day_text 790 ≡ Some (codes "1972-03-01") }
    ensures end_of_a_year { day_text 10956 ≡ Some (codes "1999-12-31") }
    ensures leap_day_of_2000 { day_text 11016 ≡ Some (codes "2000-02-29") }
    ensures end_of_a_leap_year { day_text 11322 ≡ Some (codes "2000-12-31") }
    ensures two_digits { day_text 19675 ≡ Some (codes "2023-11-14") }
    ensures no_leap_day_in_2100 { day_text 47541 ≡ Some (codes "2100-03-01") }
    ensures after_the_year_9999 { day_text 2_932_897 ≡ None }
{}

/// Every fourth year is a leap year, but of the years that begin a century only every fourth.
pub fn leap_years()
    ensures fourth { is_leap 2024 ≡ true }
    ensures other { is_leap 2023 ≡ false }
    ensures century { is_leap 2100 ≡ false }
    ensures fourth_century { is_leap 2000 ≡ true }
{}

/// The first hour and the first minute of 1970 have the number 0.
pub fn an_hour_and_a_minute_have_texts()
    ensures first_hour { hour_text 0 ≡ Some (codes "1970-01-01T00Z") }
    ensures last_hour { hour_text 23 ≡ Some (codes "1970-01-01T23Z") }
    ensures next_day { hour_text 24 ≡ Some (codes "1970-01-02T00Z") }
    ensures hour { hour_text 472_222 ≡ Some (codes "2023-11-14T22Z") }
    ensures late_hour { hour_text 70_389_528 ≡ None }
    ensures first_minute { minute_text 0 ≡ Some (codes "1970-01-01T00:00Z") }
    ensures last_minute { minute_text 1439 ≡ Some (codes "1970-01-01T23:59Z") }
    ensures minute { minute_text 28_333_333 ≡ Some (codes "2023-11-14T22:13Z") }
    ensures late_minute { minute_text 4_223_371_680 ≡ None }
{}

/// A unit of minutes is a number of minutes of which a whole number makes a day.
pub fn units_of_minutes_make_a_day()
    ensures one { minutes_unit 1 ≡ Some (Minute, 1) }
    ensures quarter { minutes_unit 15 ≡ Some (Minute, 15) }
    ensures whole_day { minutes_unit 1440 ≡ Some (Minute, 1440) }
    ensures no_minutes { minutes_unit 0 ≡ None }
    ensures seven { minutes_unit 7 ≡ None }
    ensures two_days { minutes_unit 2880 ≡ None }
{}

/// A time is in the unit that begins last before it, or with it. A time of 0 is no time.
pub fn a_time_is_in_a_unit()
    ensures day { start_text days 1_700_000_000_000 ≡ codes "2023-11-14" }
    ensures hour { start_text hours 1_700_000_000_000 ≡ codes "2023-11-14T22Z" }
    ensures minute { start_text minutes 1_700_000_000_000 ≡ codes "2023-11-14T22:13Z" }
    ensures quarter { start_text quarters 1_700_000_000_000 ≡ codes "2023-11-14T22:00Z" }
    ensures begin_of_a_quarter { start_text quarters 1_700_000_100_000 ≡ codes "2023-11-14T22:15Z" }
    ensures end_of_a_quarter { start_text quarters 1_700_000_099_999 ≡ codes "2023-11-14T22:00Z" }
    ensures no_time { start_text days 0 ≡ codes "0" }
    ensures first_time { start_text days 1 ≡ codes "1970-01-01" }
    ensures end_of_a_day { start_text days 86_399_999 ≡ codes "1970-01-01" }
    ensures next_day { start_text days 86_400_000 ≡ codes "1970-01-02" }
    ensures after_the_year_9999 { start_text days 253_402_300_800_000 ≡ codes "2932897" }
{}

/// The first column has the start of the unit. Rows without a start come first.
pub fn rows_are_grouped_by_time()
    ensures by_day { by_time days ([]) unlabelled
        (record tcp { start_ms = 86_400_000 } ∷ record tcp { start_ms = 5 } ∷ record tcp { start_ms = 172_799_999 }
        ∷ record tcp { start_ms = 0 } ∷ [])
        ≡ codes "day|records|packets|bytes\n0|1|5|546\n1970-01-01|1|5|546\n1970-01-02|2|10|1092\n" }
    ensures by_hour { by_time hours ([]) unlabelled (record tcp { start_ms = 7_200_000 } ∷ [])
        ≡ codes "hour|records|packets|bytes\n1970-01-01T02Z|1|5|546\n" }
    ensures by_quarters_and_protocol { by_time quarters (Number Protocol ∷ []) unlabelled
        (record tcp { start_ms = 900_000; protocol = 17 } ∷ record tcp { start_ms = 1_799_999 }
        ∷ record tcp_back { start_ms = 1_000_000 } ∷ [])
        ≡ codes "minute|proto|records|packets|bytes\n1970-01-01T00:15Z|6|2|7|626\n1970-01-01T00:15Z|17|1|5|546\n" }
{}
