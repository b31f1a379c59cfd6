// The cases of ship lots, run: the mean at its edges, the bounds of a record, the order of the refusals, the largest sums. Each call's answer is printed.

#![tactic(auto)]

use lot_rules::Sublot;
use std::io;

// Wheat at its standard basis, of a figure and tonnes.
fn wheat(figure: i32, tonnes: i32) -> Sublot {
    Sublot {
        figure,
        basis: 1200,
        tonnes,
    }
}

// A tonne at another basis.
fn at_basis(basis: i32) -> Sublot {
    Sublot {
        basis,
        ..wheat(44, 1)
    }
}

fn print_lot(rt: &impl Print, name: &str, records: &[Sublot]) -> io::Result<()> {
    match lot::ship_lot(records) {
        Ok(s) => println!(rt;
            "  {name}: basis {} figures {} to {} tonnes {} sum {} mean {}",
            s.basis, s.lowest, s.highest, s.tonnes, s.weighted_sum, s.mean
        ),
        Err(refusal) => println!(rt; "  {name}: refused {}", u32::from(refusal)),
    }
}

fn means(rt: &impl Print) -> io::Result<()> {
    println!(rt; "means")?;
    print_lot(rt, "44 of 11 t, 45 of 9 t", &[wheat(44, 11), wheat(45, 9)])?;
    print_lot(
        rt,
        "44 of 10 t, 45 of 10 t",
        &[wheat(44, 10), wheat(45, 10)],
    )?;
    print_lot(rt, "44 of 9 t, 45 of 11 t", &[wheat(44, 9), wheat(45, 11)])?;
    print_lot(rt, "44 of 1 t, 45 of 1 t", &[wheat(44, 1), wheat(45, 1)])?;
    print_lot(
        rt,
        "the first in another order",
        &[wheat(45, 9), wheat(44, 11)],
    )?;
    print_lot(
        rt,
        "the first, one sublot split",
        &[wheat(44, 5), wheat(45, 9), wheat(44, 6)],
    )?;
    print_lot(
        rt,
        "lowest in the middle, highest last",
        &[wheat(120, 3), wheat(118, 1), wheat(125, 2)],
    )?;
    print_lot(rt, "one record", &[wheat(135, 7)])?;
    print_lot(
        rt,
        "0 of 1 t, 1000 of 999999 t",
        &[wheat(0, 1), wheat(1000, 999_999)],
    )
}

fn sizes(rt: &impl Print) -> io::Result<()> {
    println!(rt; "sizes")?;
    print_lot(rt, "no record", &[])?;
    print_lot(
        rt,
        "500 records of 1000000 t",
        &[wheat(1000, 1_000_000); 500],
    )?;
    print_lot(rt, "501 records", &[wheat(44, 1); 501])?;
    print_lot(rt, "501 records of 0 t", &[wheat(44, 0); 501])
}

fn bounds(rt: &impl Print) -> io::Result<()> {
    println!(rt; "bounds")?;
    print_lot(rt, "1000000 t", &[wheat(44, 1_000_000)])?;
    print_lot(rt, "0 t", &[wheat(44, 0)])?;
    print_lot(rt, "-1 t", &[wheat(44, -1)])?;
    print_lot(rt, "1000001 t", &[wheat(44, 1_000_001)])?;
    print_lot(rt, "figure -1", &[wheat(-1, 1)])?;
    print_lot(rt, "figure 1001", &[wheat(1001, 1)])?;
    print_lot(rt, "basis 0", &[at_basis(0)])?;
    print_lot(rt, "basis 5000", &[at_basis(5000)])?;
    print_lot(rt, "basis -1", &[at_basis(-1)])?;
    print_lot(rt, "basis 5001", &[at_basis(5001)])?;
    print_lot(
        rt,
        "the last of three is bad",
        &[wheat(44, 1), wheat(44, 1), wheat(1001, 1)],
    )
}

fn bases(rt: &impl Print) -> io::Result<()> {
    println!(rt; "bases")?;
    let other = at_basis(1400);
    print_lot(rt, "1200, 1400", &[wheat(44, 1), other])?;
    print_lot(rt, "1200, 1200, 1400", &[wheat(44, 1), wheat(44, 1), other])?;
    print_lot(rt, "1400, 1200, 1400", &[other, wheat(44, 1), other])?;
    print_lot(
        rt,
        "1200, 1400, and the last of 0 t",
        &[wheat(44, 1), other, wheat(44, 0)],
    )
}

fn main(rt: HostRuntime) -> io::Result<()> {
    means(&rt)?;
    sizes(&rt)?;
    bounds(&rt)?;
    bases(&rt)
}
