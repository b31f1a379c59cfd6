// The tests of a set's averages (docs/SPECIFICATION.md, "A line between sheets").

#![tactic(auto)]

ghost use Rattle.std.specs.Prelude.{◌≡◌, [], ◌∷◌};
ghost use Rattle.std.specs.Result.{result_err as err};
ghost use Rattle.station_rules.specs.Lines.{test_of, plus, first_exceeded, newest_tests, five_test, averages_due, tests_by};
ghost use Rattle.station_rules.specs.Held.{phase_word};
ghost use Rattle.line_past.specs.Ranges.{SetsOf};
ghost use Rattle.line_averages.specs.Ranges.{Together, FoundFits, Limited, FoundLimited, Due};

use station_rules::{ADJUSTED_LINE, Limits, PastSet, Set, Test};

// The summed S and N.
fn plus(set: Set, p: PastSet) -> Set
    requires { (Together 4 set) × (SetsOf 1 p.sum p.count) }
    ensures { result ≡ plus set p }
{
    Set {
        sum: set.sum + p.sum,
        count: set.count + p.count,
    }
}

// The sets meet a limit, or the test is exceeded: |S| is above the limit times N.
fn meet(limit: u32, set: Set) -> Result<(), Test>
    requires { Together 5 set }
    ensures { (err result ≡ first_exceeded (test_of limit set ∷ [])) × FoundFits (err result) }
{
    if u64::from(limit) * u64::from(set.count) < u64::from(set.sum.unsigned_abs()) {
        return Err(Test {
            limit,
            sum: set.sum,
            count: set.count,
        });
    }
    Ok(())
}

// By the newest sets: the set alone, the two together where one is valid, the three where two are.
fn meet_newest(limits: Limits, set: Set, newest: &[PastSet]) -> Result<(), Test>
    requires { Due set newest.now }
    ensures { (err result ≡ first_exceeded (newest_tests limits set newest.now)) × FoundFits (err result) }
{
    meet(limits.one, set)?;
    let [p, ..] = newest else {
        return Ok(());
    };
    let two = plus(set, *p);
    meet(limits.two, two)?;
    let [_, q, ..] = newest else {
        return Ok(());
    };
    meet(limits.three, plus(two, *q))
}

// By the non-zero sets: the five where four are valid and all lie on one side of zero.
fn meet_five(limits: Limits, set: Set, nonzero: &[PastSet]) -> Result<(), Test>
    requires { Due set nonzero.now }
    ensures { (err result ≡ first_exceeded (five_test limits set nonzero.now)) × FoundFits (err result) }
{
    let [p, q, r, s] = nonzero else {
        return Ok(());
    };
    if !line_past::on_one_side(set, nonzero) {
        return Ok(());
    }
    let three = plus(plus(set, *p), *q);
    meet(limits.five, plus(plus(three, *r), *s))
}

// The averages due of a new or open line's set.
fn meet_averages(
    limits: Limits,
    set: Set,
    newest: &[PastSet],
    nonzero: &[PastSet],
) -> Result<(), Test>
    requires { (Due set newest.now) × (Due set nonzero.now) }
    ensures { (err result ≡ first_exceeded (averages_due limits set newest.now nonzero.now)) × FoundFits (err result) }
{
    meet_newest(limits, set, newest)?;
    meet_five(limits, set, nonzero)
}

// The first test exceeded of those due by the phase: the averages, or the check of an adjusted or shut line. The phase is a code, as the places hold it for C.
pub fn first_exceeded(
    limits: Limits,
    phase: u32,
    set: Set,
    newest: &[PastSet],
    nonzero: &[PastSet],
) -> Option<Test>
    requires { (Due set newest.now) × (Due set nonzero.now) }
    ensures found { result ≡ first_exceeded (tests_by limits (phase_word phase) set newest.now nonzero.now) }
    ensures fits { FoundFits result }
    ensures limited { Limited limits → FoundLimited result }
{
    if phase < ADJUSTED_LINE {
        meet_averages(limits, set, newest, nonzero).err()
    } else {
        meet(limits.check, set).err()
    }
}
