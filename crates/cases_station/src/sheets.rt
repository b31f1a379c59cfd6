// Sheets of numbers: baseline, first, second, third, again-first, again-second for each sample.
use station_rules::{NOT_MEASURED, SAMPLE_NUMBERS};

// The numbers of a wheat sheet, six samples, and of a corn sheet, four.
pub(crate) const WHEAT_NUMBERS: usize = 6 * SAMPLE_NUMBERS;

pub(crate) const CORN_NUMBERS: usize = 4 * SAMPLE_NUMBERS;

// The numbers of a sample.
pub(crate) type Sample = [i32; SAMPLE_NUMBERS];

// Samples with the same baseline and results.
pub(crate) fn alike<const NUMBERS: usize>(baseline: i32, measured: i32) -> [i32; NUMBERS] {
    let mut numbers = [NOT_MEASURED; NUMBERS];
    for sample in numbers.chunks_exact_mut(SAMPLE_NUMBERS) {
        sample[0] = baseline;
        sample[1] = measured;
        sample[2] = measured;
    }
    numbers
}

// Wheat: five samples with baseline 1000 and the same results, and another last one.
pub(crate) fn but_last(measured: i32, last: Sample) -> [i32; WHEAT_NUMBERS] {
    let mut numbers = alike(1000, measured);
    numbers[WHEAT_NUMBERS - SAMPLE_NUMBERS..].copy_from_slice(&last);
    numbers
}

// Wheat, baseline 1000: five samples with one result and the last with another, and again.
pub(crate) fn apart(measured: i32, last: i32) -> [i32; WHEAT_NUMBERS] {
    let mut numbers: [i32; WHEAT_NUMBERS] = alike(1000, measured);
    for sample in numbers.chunks_exact_mut(SAMPLE_NUMBERS) {
        sample[4] = measured;
        sample[5] = measured;
    }
    let sample: Sample = [1000, last, last, NOT_MEASURED, last, last];
    numbers[WHEAT_NUMBERS - SAMPLE_NUMBERS..].copy_from_slice(&sample);
    numbers
}

// Wheat: three samples in this order, and three more at their baseline.
pub(crate) fn three(samples: [Sample; 3]) -> [i32; WHEAT_NUMBERS] {
    let mut numbers = alike(1000, 1000);
    for (place, sample) in numbers.chunks_exact_mut(SAMPLE_NUMBERS).zip(samples) {
        place.copy_from_slice(&sample);
    }
    numbers
}
