// A ship lot stated: the lent records are tallied one by one, each by its numbers.

#![tactic(auto)]

ghost use Rattle.std.specs.Prelude.{◌≡◌, ◌*◌, ◌≤◌};
ghost use Rattle.lot_rules.specs.Lots.{bad_sublot, lot_of};
ghost use Rattle.lot.specs.Tallies.{no_record, with_record, stated};

use lot_rules::{
    LARGEST_BASIS, LARGEST_FIGURE, MOST_RECORDS, MOST_TONNES, Refusal, Statement, Sublot,
};

// What the records so far come to: the basis of the first, whether another differs from it, the lowest and the highest figure, the tonnes, the sum of figure times tonnes.
// Unlike bases are no refusal yet: a record out of its bounds counts before them, wherever it stands.
#[derive(Clone, Copy)]
struct Tally {
    basis: i32,
    unlike: bool,
    lowest: u32,
    highest: u32,
    tonnes: u64,
    weighted_sum: u64,
}

// Number 30, of one record.
#[tactic(auto, unfolding(lot_rules::specs::Lots::bad_sublot))]
fn is_bad(r: Sublot) -> bool
    ensures { result ≡ bad_sublot r }
{
    !(1..=MOST_TONNES).contains(&r.tonnes)
        || !(0..=LARGEST_FIGURE).contains(&r.figure)
        || !(0..=LARGEST_BASIS).contains(&r.basis)
}

impl Tally {
    // Of no record: the lowest figure so far starts from the largest that there is.
    fn new(basis: i32) -> Tally
        ensures { result ≡ no_record basis }
    {
        Tally {
            basis,
            unlike: false,
            lowest: LARGEST_FIGURE as u32,
            highest: 0,
            tonnes: 0,
            weighted_sum: 0,
        }
    }

    // One record more. The sums that it asks for are twice what 500 records come to.
    #[tactic(auto, unfolding(crate::specs::Tallies::with_record, crate::specs::Tallies::added))]
    fn with_record(self, r: Sublot) -> Result<Tally, Refusal>
        requires { (self.tonnes ≤ 1000000000) × (self.weighted_sum ≤ 1000000000000) }
        ensures { result ≡ with_record self r }
    {
        if is_bad(r) {
            return Err(Refusal::BadSublot);
        }
        let figure = r.figure.unsigned_abs();
        let tonnes = u64::from(r.tonnes.unsigned_abs());
        Ok(Tally {
            basis: self.basis,
            unlike: self.unlike || r.basis != self.basis,
            lowest: self.lowest.min(figure),
            highest: self.highest.max(figure),
            tonnes: self.tonnes + tonnes,
            weighted_sum: self.weighted_sum + u64::from(figure) * tonnes,
        })
    }

    // The statement of all records, unless their bases are unlike.
    #[tactic(auto, unfolding(crate::specs::Tallies::stated), using(crate::proofs::TallyLaws::mean_fits))]
    fn statement(self) -> Result<Statement, Refusal>
        requires { (1 ≤ self.tonnes) × ((self.tonnes ≤ 1000000000) × (self.weighted_sum ≤ 1000 * self.tonnes)) }
        ensures { result ≡ stated self }
    {
        if self.unlike {
            return Err(Refusal::UnlikeBasis);
        }
        let mean = whole::nearest_tenth(self.weighted_sum, self.tonnes) as u32;
        Ok(Statement {
            basis: self.basis,
            lowest: self.lowest,
            highest: self.highest,
            tonnes: self.tonnes,
            weighted_sum: self.weighted_sum,
            mean,
        })
    }
}

// The statement of a lot. More than 500 records are refused unseen, and the pass stops at the first that is out of its bounds.
pub fn ship_lot(records: &[Sublot]) -> Result<Statement, Refusal>
    ensures { result ≡ lot_of records.now }
{
    if !(1..=MOST_RECORDS).contains(&records.len()) {
        return Err(Refusal::LotSize);
    }
    let mut tally = Tally::new(records[0].basis);
    for record in records {
        tally = tally.with_record(*record)?;
    }
    tally.statement()
}
