// The product rows (docs/SPECIFICATION.md, "Product rows"): samples, standard basis, lines, and the limits of a row's line.

#![tactic(auto)]

ghost use Rattle.std.specs.Prelude.{◌≡◌};
ghost use Rattle.station_rules.specs.Rows.{row_exists, row_of, samples, standard_basis, line_count, limits_of};

use station_rules::{Limits, WHEAT};

// A line that the row lacks has no limits: zeros, as in the rules.
const NO_LIMITS: Limits = Limits {
    pair: 0,
    sample: 0,
    range: 0,
    one: 0,
    two: 0,
    three: 0,
    five: 0,
    check: 0,
};

// A row: samples a sheet, the standard basis A, and the limits of each line. Outside it is a number, as C hands it in and the places hold it: what stands below is defined for every number, as the rules are.
#[derive(Clone, Copy)]
struct Row {
    samples: u32,
    basis: u32,
    lines: &'static [Limits],
}

#[tactic(auto, using(crate::proofs::RowLaws::row_wheat, crate::proofs::RowLaws::row_corn))]
fn row_of(row: u32) -> Row
    ensures { record { samples = result.samples; basis = result.basis; lines = result.lines.now } ≡ row_of row }
{
    match row {
        WHEAT => Row {
            samples: 6,
            basis: 1200,
            lines: row_limits::wheat_lines(),
        },
        _ => Row {
            samples: 4,
            basis: 0,
            lines: row_limits::corn_lines(),
        },
    }
}

pub fn row_exists(row: usize) -> bool
    ensures { result ≡ row_exists row }
{
    row < 2
}

// Samples a sheet.
#[tactic(auto, unfolding(station_rules::specs::Rows::samples))]
pub fn sample_count(row: u32) -> u32
    ensures { result ≡ samples row }
{
    row_of(row).samples
}

// The standard basis A.
#[tactic(auto, unfolding(station_rules::specs::Rows::standard_basis))]
pub fn standard_basis(row: u32) -> u32
    ensures { result ≡ standard_basis row }
{
    row_of(row).basis
}

#[tactic(auto, unfolding(station_rules::specs::Rows::line_count))]
pub fn line_count(row: u32) -> usize
    ensures { result ≡ line_count row }
{
    row_of(row).lines.len()
}

#[tactic(auto, unfolding(station_rules::specs::Rows::limits_of))]
pub fn limits_of(row: u32, line: usize) -> Limits
    ensures { result ≡ limits_of row line }
{
    row_of(row).lines.get(line).copied().unwrap_or(NO_LIMITS)
}
