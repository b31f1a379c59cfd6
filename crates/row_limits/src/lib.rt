// The limits of each row's lines (docs/SPECIFICATION.md, "Product rows").

#![tactic(auto)]

ghost use Rattle.std.specs.Prelude.{◌≡◌};
ghost use Rattle.station_rules.specs.Rows.{wheat, corn};

use station_rules::Limits;

// Line 0 protein.
#[rattlefmt::skip]
static WHEAT: [Limits; 1] = [
    Limits { pair: 30, sample: 40, range: 50, one: 10, two: 7, three: 5, five: 3, check: 5 },
];

// Line 0 protein, line 1 oil, line 2 starch.
#[rattlefmt::skip]
static CORN: [Limits; 3] = [
    Limits { pair: 30, sample: 40, range: 50, one: 15, two: 10, three: 7, five: 5, check: 7 },
    Limits { pair: 40, sample: 50, range: 60, one: 15, two: 10, three: 7, five: 6, check: 7 },
    Limits { pair: 90, sample: 80, range: 150, one: 35, two: 25, three: 20, five: 15, check: 20 },
];

pub fn wheat_lines() -> &'static [Limits]
    ensures { result.now ≡ wheat.lines }
{
    &WHEAT
}

pub fn corn_lines() -> &'static [Limits]
    ensures { result.now ≡ corn.lines }
{
    &CORN
}
