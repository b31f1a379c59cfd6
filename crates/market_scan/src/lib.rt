// What the analyser answered: the float asked for. No methods of `Scan`: their proofs would stand among the rules.

#![tactic(auto)]

ghost use Rattle.std.specs.Prelude.{◌≡◌};
ghost use Rattle.station_rules.specs.Readings.{corn_float};
ghost use Rattle.market_scan.specs.Scans.{picked_of};

use station_rules::{Asked, CornSet, OIL, PROTEIN, Scan, WHEAT};

// The corn set's float of a line: protein, oil, starch.
#[tactic(auto, unfolding(station_rules::specs::Readings::corn_float))]
fn corn_value(c: CornSet, line: usize) -> f32
    ensures { result ≡ corn_float c line }
{
    match line {
        PROTEIN => c.protein,
        OIL => c.oil,
        _ => c.starch,
    }
}

// The scan's float of what is asked, where the scan serves. The row is a number, as C hands it in and the places hold it.
#[tactic(auto, unfolding(crate::specs::Scans::picked_of, station_rules::specs::Readings::scan_serves, station_rules::specs::Readings::scan_fits, station_rules::specs::Readings::brings_gluten, station_rules::specs::Readings::asked_float, station_rules::specs::Readings::line_float, station_rules::specs::Readings::gluten_float))]
pub fn pick(row: u32, scan: Scan, asked: Asked, line: usize) -> Option<f32>
    ensures { result ≡ picked_of row scan asked line }
{
    match (asked, scan) {
        (Asked::LineFigure, Scan::Wheat(x)) if row == WHEAT => Some(x),
        (Asked::LineFigure, Scan::WheatGluten(w)) if row == WHEAT => Some(w.protein),
        (Asked::LineFigure, Scan::Corn(c)) if row != WHEAT => Some(corn_value(c, line)),
        (Asked::Gluten(_), Scan::WheatGluten(w)) if row == WHEAT => Some(w.gluten),
        _ => None,
    }
}
