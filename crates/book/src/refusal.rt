// Why a call is refused: the first test that failed.
ghost use Rattle.std.specs.Prelude.{◌≡◌};
ghost use Rattle.book.specs.Refusals.{refusal_number};

// The tests, in the order of their numbers.
#[derive(Clone, Copy, Debug, PartialEq, Eq)]
pub enum Refusal {
    // 1: fewer than five bytes, or the length is not the count of the bytes after it.
    Length,
    // 2: the version is none that such books have.
    Version,
    // 3: the header is incomplete, or a count in it is outside its limits.
    Header,
    // 4: a record is incomplete, or bytes follow the last one.
    Records,
    // 5: a record's value is outside its range or order, or a byte of kinds is 0.
    Value,
    // 6: some junction can't be reached from junction 0.
    Unreached,
    // 7: the tree's shape rules don't hold.
    Shape,
    // 8: junction counts or yards differ between books, or a yard is no junction.
    Disagree,
    // 9: a stored distance, least, greatest or byte of kinds isn't true.
    Distance,
    // 10: crews are none, more than 16, or at no junction of the road book.
    Crews,
    // 11: k, the aggregate, m or the leaf limit is outside its range.
    Number,
    // 12: a lent area is too short.
    Area,
    // 13: no kind is wanted.
    Wanted,
}

impl Refusal {
    // The number of the test that failed.
    pub fn number(self) -> u8
        ensures { result ≡ refusal_number self }
    {
        match self {
            Refusal::Length => 1,
            Refusal::Version => 2,
            Refusal::Header => 3,
            Refusal::Records => 4,
            Refusal::Value => 5,
            Refusal::Unreached => 6,
            Refusal::Shape => 7,
            Refusal::Disagree => 8,
            Refusal::Distance => 9,
            Refusal::Crews => 10,
            Refusal::Number => 11,
            Refusal::Area => 12,
            Refusal::Wanted => 13,
        }
    }
}
