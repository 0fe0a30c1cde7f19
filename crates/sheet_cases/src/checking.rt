// Checks the sheets of a table of cases, and prints each verdict with the count of records before a fault.
// A line is a name, a colon and the sheet's bytes: words of hexadecimal digits, two a byte, each perhaps followed by `*` and how often it stands.
use anyhow::anyhow;
use sheet::check;
use std::alloc::Global;

fn digit(c: u8) -> anyhow::Result<u8> {
    match c {
        b'0'..=b'9' => Ok(c - b'0'),
        b'a'..=b'f' => Ok(c - b'a' + 10),
        _ => Err(anyhow!("a word is not hexadecimal")),
    }
}

// The bytes that a word's digits write; a last digit that has no second one writes none. Not by the crate `hex`, which reads capitals too and refuses
// such a digit.
fn bytes_of(heap: Global, word: &str) -> anyhow::Result<Vec<u8>> {
    let (pairs, left_over) = word.as_bytes().as_chunks::<2>();
    let mut bytes = Vec::new(heap);
    for [high, low] in pairs {
        bytes.push(digit(*high)? << 4 | digit(*low)?)?;
    }
    for half in left_over {
        digit(*half)?;
    }
    Ok(bytes)
}

// Adds a word's bytes to a sheet, as often as it says.
fn add_word(heap: Global, sheet: &mut Vec<u8>, word: &str) -> anyhow::Result<()> {
    let (digits, times) = match word.split_once('*') {
        Some((digits, count)) => (digits, count.parse::<u32>()?),
        None => (word, 1),
    };
    let bytes = bytes_of(heap, digits)?;
    for _ in 0..times {
        sheet.extend_from_slice(&bytes)?;
    }
    Ok(())
}

pub fn sheet_of(heap: Global, text: &str) -> anyhow::Result<Vec<u8>> {
    let mut sheet = Vec::new(heap);
    for word in text.split(' ') {
        add_word(heap, &mut sheet, word)?;
    }
    Ok(sheet)
}

fn print_verdict(rt: &HostRuntime, name: &str, sheet: &[u8]) -> anyhow::Result<()> {
    match check(sheet) {
        Ok(found) => {
            let constraints = found.constraints_at;
            let moves = found.moves_at;
            println!(rt; "{name}: {found}; constraints at {constraints}, moves at {moves}")?;
        }
        Err(fault) => {
            let before = fault.records();
            println!(rt; "{name}: {fault}; {before} records before")?;
        }
    }
    Ok(())
}

pub fn try_case(rt: &HostRuntime, name: &str, text: &str) -> anyhow::Result<()> {
    let sheet = sheet_of(rt.alloc(), text)?;
    print_verdict(rt, name, &sheet)
}
