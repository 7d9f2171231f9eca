ghost use Rattle.std.specs.Prelude.{◌≡◌, ◌<◌, option_map};
ghost use Rattle.std.specs.Coded.{le_prop};

use flow_rows::Number;

/// How exact a time is.
#[derive(Clone, Copy)]
pub enum Precision {
    Day,
    Hour,
    Minute,
}

impl Precision {
    ghost use Rattle.flow_uniq.specs.Times.{milliseconds_of, precision_name};

    /// Returns `day`, `hour` or `minute`.
    pub fn name(self) -> &'static str
        ensures { result.now ≡ precision_name self }
    {
        match self {
            Precision::Day => "day",
            Precision::Hour => "hour",
            Precision::Minute => "minute",
        }
    }

    // Returns the number of milliseconds of a day, an hour or a minute.
    #[inline(always)]
    fn milliseconds(self) -> u64
        ensures { result ≡ milliseconds_of self }
    {
        match self {
            Precision::Day => 86_400_000,
            Precision::Hour => 3_600_000,
            Precision::Minute => 60_000,
        }
    }
}

/// A unit of time: a day, an hour, or a number of minutes.
#[derive(Clone, Copy)]
pub struct TimeUnit {
    /// How exact the start of a unit is.
    pub precision: Precision,
    /// The number of days, hours or minutes.
    pub count: u16,
    ghost some: { 0 < count } by { le_prop },
}

impl TimeUnit {
    ghost use Rattle.flow_uniq.specs.Times.{minutes_unit, unit_start};
    ghost use Rattle.flow_uniq.specs.declared.field.Precision.TheVariants.{Day, Hour};

    /// Returns the unit of one day.
    pub fn day() -> TimeUnit
        ensures { (result.precision ≡ Day) × (result.count ≡ 1) }
    {
        TimeUnit {
            precision: Precision::Day,
            count: 1,
        }
    }

    /// Returns the unit of one hour.
    pub fn hour() -> TimeUnit
        ensures { (result.precision ≡ Hour) × (result.count ≡ 1) }
    {
        TimeUnit {
            precision: Precision::Hour,
            count: 1,
        }
    }

    /// Returns the unit of this number of minutes, or `None` if no whole number of such units makes a day.
    pub fn minutes(count: u16) -> Option<TimeUnit>
        ensures { option_map (λ unit. (unit.precision, unit.count)) result ≡ minutes_unit count }
    {
        if count == 0 || 1440 % count != 0 {
            return None;
        }
        Some(TimeUnit {
            precision: Precision::Minute,
            count,
        })
    }

    /// Returns the number of the UTC day, hour or minute at which the unit begins that a time is in, where the first of
    /// 1970 has the number 0. The time is in milliseconds since then; 0 is no time.
    #[inline(always)]
    pub fn start_of(self, time: u64) -> Option<u64>
        ensures { result ≡ unit_start self time }
    {
        if time == 0 {
            return None;
        }
        let number = time / self.precision.milliseconds();
        Some(number - number % u64::from(self.count))
    }
}

/// A field of a row that a key may have.
#[derive(Clone, Copy, Default)]
pub enum KeyField {
    /// `sip`: the source address.
    #[default]
    SourceAddress,
    /// `dip`: the destination address.
    DestinationAddress,
    /// A number of up to 32 bits, such as `sport`.
    Number(Number),
    /// `src-label`: the label of the source address.
    SourceLabel,
    /// `dst-label`: the label of the destination address.
    DestinationLabel,
    /// `day`, `hour` or `minute`: the start of the unit of time that the row starts in.
    Start(TimeUnit),
}

/// The fields that `flowlabel` knows.
pub const ALL_FIELDS: [KeyField; 8] = [
    KeyField::SourceAddress,
    KeyField::DestinationAddress,
    KeyField::Number(Number::SourcePort),
    KeyField::Number(Number::DestinationPort),
    KeyField::Number(Number::Protocol),
    KeyField::Number(Number::Flags),
    KeyField::SourceLabel,
    KeyField::DestinationLabel,
];

/// All fields that a text can name: `ALL_FIELDS`, and the numbers that are no columns of rows.
pub const MANY_FIELDS: [KeyField; 13] = [
    KeyField::SourceAddress,
    KeyField::DestinationAddress,
    KeyField::Number(Number::SourcePort),
    KeyField::Number(Number::DestinationPort),
    KeyField::Number(Number::Protocol),
    KeyField::Number(Number::Flags),
    KeyField::SourceLabel,
    KeyField::DestinationLabel,
    KeyField::Number(Number::InputInterface),
    KeyField::Number(Number::OutputInterface),
    KeyField::Number(Number::Vlan),
    KeyField::Number(Number::SourceAs),
    KeyField::Number(Number::DestinationAs),
];

impl KeyField {
    ghost use Rattle.flow_uniq.specs.Key.{field_name, is_label_field};

    /// Returns the name of the field.
    pub fn name(self) -> &'static str
        ensures { result.now ≡ field_name self }
    {
        match self {
            KeyField::SourceAddress => "sip",
            KeyField::DestinationAddress => "dip",
            KeyField::Number(number) => number.name(),
            KeyField::SourceLabel => "src-label",
            KeyField::DestinationLabel => "dst-label",
            KeyField::Start(unit) => unit.precision.name(),
        }
    }

    /// Returns `true` if the field is a label.
    pub fn is_label(self) -> bool
        ensures { result ≡ is_label_field self }
    {
        matches!(self, KeyField::SourceLabel | KeyField::DestinationLabel)
    }
}
