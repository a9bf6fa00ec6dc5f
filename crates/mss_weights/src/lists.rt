//! Lists of numbers of the finder. What a list doesn't have is 0, and sums and products that are too large are the largest
//! number.
ghost use Rattle.std.specs.Prelude.{◌≡◌, ◌+◌, ◌*◌};

/// The number at a place.
pub(crate) fn at(list: &[u64], place: usize) -> u64 {
    if place < list.len() { list[place] } else { 0 }
}

/// Puts a number at a place, if the list has it.
pub(crate) fn put(list: &mut [u64], place: usize, number: u64) {
    if place < list.len() {
        list[place] = number;
    }
}

/// The place of a column in a row, row by row.
pub(crate) fn cell(row: u8, width: u8, column: u8) -> usize
    ensures { result ≡ row * width + column }
{
    usize::from(row) * usize::from(width) + usize::from(column)
}

/// A row of a list.
pub(crate) fn row(list: &[u64], row: u8, width: u8) -> &[u64] {
    let first = cell(row, width, 0).min(list.len());
    let end = (first + usize::from(width)).min(list.len());
    &list[first..end]
}

/// A row of a list, to be changed.
pub(crate) fn row_mut(list: &mut [u64], row: u8, width: u8) -> &mut [u64] {
    let first = cell(row, width, 0).min(list.len());
    let end = (first + usize::from(width)).min(list.len());
    &mut list[first..end]
}

/// The sum of all numbers.
pub(crate) fn total(list: &[u64]) -> u64 {
    let mut total = 0u64;
    for number in list {
        total = total.saturating_add(*number);
    }
    total
}

/// The largest number, or 0.
pub(crate) fn largest(list: &[u64]) -> u64 {
    let mut largest = 0;
    for number in list {
        largest = (*number).max(largest);
    }
    largest
}

/// The sum of the products of prices and counts.
pub(crate) fn worth(prices: &[u64], counts: &[u64]) -> u64 {
    let mut total = 0u64;
    for place in 0..prices.len() {
        let product = prices[place].saturating_mul(at(counts, place));
        total = total.saturating_add(product);
    }
    total
}

/// Puts one number everywhere.
pub(crate) fn fill(list: &mut [u64], number: u64) {
    for place in 0..list.len() {
        list[place] = number;
    }
}

/// Adds a multiple of another list.
pub(crate) fn add_times(list: &mut [u64], others: &[u64], factor: u64) {
    for place in 0..list.len() {
        let product = at(others, place).saturating_mul(factor);
        list[place] = list[place].saturating_add(product);
    }
}

/// Puts the numbers of another list, each over a divisor.
pub(crate) fn put_quotients(list: &mut [u64], others: &[u64], divisor: u64) {
    for place in 0..list.len() {
        list[place] = at(others, place) / divisor.max(1);
    }
}

/// Divides all numbers, and rounds them to the nearest.
pub(crate) fn divide(list: &mut [u64], divisor: u64) {
    let divisor = divisor.max(1);
    for place in 0..list.len() {
        list[place] = list[place].saturating_add(divisor / 2) / divisor;
    }
}
