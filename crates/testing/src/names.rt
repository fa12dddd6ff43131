// Names with counts: the names are a list with commas between.
use std::io;

// Prints each count after the name of its number, an empty one where the list is shorter, and ends the line.
pub fn print_counts<R: Print>(
    rt: &R,
    names: &str,
    first: usize,
    counts: &[usize],
) -> io::Result<()> {
    for (i, count) in counts.iter().enumerate() {
        let before = if i == 0 { ":" } else { "," };
        let name = name(names, first.saturating_add(i));
        print!(rt; "{before} {name} {count}")?;
    }
    println!(rt)
}

// The name of a number.
pub fn name(names: &str, number: usize) -> &str {
    names.split(',').nth(number).unwrap_or("")
}
