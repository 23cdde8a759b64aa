// The aggregate that a query asks for.
ghost use Rattle.std.specs.Prelude.{◌≡◌};
ghost use Rattle.query.specs.code.Aggregates.{aggregate_by};

// What a yard's aggregate is of the crews' drives: their sum, or the furthest crew's.
#[derive(Clone, Copy, Debug, PartialEq, Eq)]
pub enum Aggregate {
    Sum,
    Furthest,
}

impl Aggregate {
    // The aggregate that a code names: 0 the sum, and any other the furthest.
    pub fn of(code: u8) -> Aggregate
        ensures { result ≡ aggregate_by code }
    {
        match code {
            0 => Aggregate::Sum,
            _ => Aggregate::Furthest,
        }
    }
}
