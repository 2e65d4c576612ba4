// The refusals of document 01's table, and 13 to 17 of document 02.
ghost use Rattle.std.specs.Prelude.{◌≡◌};
ghost use Rattle.job.specs.Refusal.{number_of};

#[derive(Clone, Copy, PartialEq, Eq, Debug)]
pub enum Refusal {
    Torn = 1,
    Strange,
    Crowded,
    OffTheTable,
    NoSuch,
    Loose,
    Muddled,
    OpenEdge,
    Knot,
    Full,
    SmallTray,
    OutOfTurn,
    BadRate,
    UnknownName,
    NoPlace,
    SettingsDiffer,
    PastMending,
}

impl Refusal {
    // The table's number.
    pub fn number(self) -> u32
        ensures { result ≡ number_of self }
    {
        self as u32
    }
}
