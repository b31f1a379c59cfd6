// What a market test is asked for (docs/SPECIFICATION.md, "Wet gluten"): numbers 23 and 24, the basis that the figure stands at, and its intercept.

#![tactic(auto)]

ghost use Rattle.std.specs.Prelude.{◌≡◌};
ghost use Rattle.whole.specs.Bounds.{Within};
ghost use Rattle.station_rules.specs.Markets.{basis_from, asked_intercept, other_class, other_basis};

use station_rules::{Asked, Basis, GLUTEN_BASIS, GLUTEN_FACTOR, THOUSAND, WheatClass};

// Gluten is asked with another class than the hard red ones.
#[tactic(auto, unfolding(station_rules::specs::Markets::other_class))]
pub fn is_other_class(asked: Asked) -> bool
    ensures { result ≡ other_class asked }
{
    matches!(asked, Asked::Gluten(WheatClass::Other))
}

// Gluten is asked with a basis not asked for as standard.
#[tactic(auto, unfolding(station_rules::specs::Markets::other_basis))]
pub fn is_other_basis(asked: Asked, basis: Basis) -> bool
    ensures { result ≡ other_basis asked basis }
{
    matches!(asked, Asked::Gluten(_)) && !matches!(basis, Basis::Standard)
}

// A: the row's standard basis, or gluten's. The row is a number, as C hands it in and the places hold it.
#[tactic(auto, unfolding(station_rules::specs::Markets::basis_from))]
pub fn basis_from(row: u32, asked: Asked) -> u32
    ensures { result ≡ basis_from row asked }
{
    match asked {
        Asked::LineFigure => row_table::standard_basis(row),
        Asked::Gluten(_) => GLUTEN_BASIS,
    }
}

// The line's intercept, or gluten's, which is derived from the protein line's whole intercept.
#[tactic(auto, unfolding(station_rules::specs::Markets::asked_intercept, station_rules::specs::Markets::derived_intercept))]
pub fn intercept_of(asked: Asked, intercept: i32) -> i32
    requires { Within 1000 1000 intercept }
    ensures { (result ≡ asked_intercept asked intercept) × Within 20000000 20000000 result }
{
    match asked {
        Asked::LineFigure => intercept,
        Asked::Gluten(_) => whole::rounded(intercept * GLUTEN_FACTOR, THOUSAND),
    }
}
