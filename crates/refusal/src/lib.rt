// Why an operation refuses what it is given. C and the listing name a refusal by its number; 0 is the number of no refusal.
#![tactic(auto)]

ghost use Rattle.std.specs.Prelude.{◌≡◌};
ghost use Rattle.refusal.specs.Number as numbers;

#[derive(Clone, Copy, Debug, PartialEq, Eq)]
pub enum Refusal {
    TableLength,
    EntryOutOfRange,
    RootHasSibling,
    NamedTwice,
    NotNamed,
    Separation,
    OutputRoom,
    WorkingRoom,
    FileLength,
    BlockCheck,
    BlockPlace,
    SheetLayout,
    TapeNumbers,
    NotReached,
    NotNewick,
    TooManyNodes,
    HalfWidths,
    Zoom,
    OutOfRange,
    SmallTreeNodes,
    SmallTreePlace,
    Dots,
    ThreeChildren,
    ExtraSpace,
}

impl Refusal {
    pub fn number(self) -> u16
        ensures { result ≡ numbers.number self }
    {
        match self {
            Refusal::TableLength => 1,
            Refusal::EntryOutOfRange => 2,
            Refusal::RootHasSibling => 3,
            Refusal::NamedTwice => 4,
            Refusal::NotNamed => 5,
            Refusal::Separation => 6,
            Refusal::OutputRoom => 7,
            Refusal::WorkingRoom => 8,
            Refusal::FileLength => 9,
            Refusal::BlockCheck => 10,
            Refusal::BlockPlace => 11,
            Refusal::SheetLayout => 12,
            Refusal::TapeNumbers => 13,
            Refusal::NotReached => 14,
            Refusal::NotNewick => 15,
            Refusal::TooManyNodes => 16,
            Refusal::HalfWidths => 17,
            Refusal::Zoom => 18,
            Refusal::OutOfRange => 19,
            Refusal::SmallTreeNodes => 20,
            Refusal::SmallTreePlace => 21,
            Refusal::Dots => 22,
            Refusal::ThreeChildren => 23,
            Refusal::ExtraSpace => 24,
        }
    }
}
