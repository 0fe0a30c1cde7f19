// The numbers in a sheet's bytes: low byte first, and 0 for a byte that is not there.
ghost use Rattle.std.specs.Prelude.{◌≡◌, ℕ, ◌+◌, ◌<◌, slice_index};
ghost use Rattle.sheet_format.specs.Numbers.{number2, number4, number8};

// the first N bytes, with 0 for each that is not there
fn padded<const N: usize>(bytes: &[u8]) -> [u8; N]
    ensures { (i : ℕ) → i < N → slice_index result i ≡ slice_index bytes.now i }
{
    let mut found = [0; N];
    let there = bytes.len().min(N);
    found[..there].copy_from_slice(&bytes[..there]);
    found
}

// The N bytes from the byte k on, with 0 for each that is not there. Where all of them are there, as nearly always, they are taken as they stand:
// a copy of a length known when the program is built, and inlined.
#[inline(always)]
fn bytes_at<const N: usize>(bytes: &[u8], k: usize) -> [u8; N]
    ensures { (i : ℕ) → i < N → slice_index result i ≡ slice_index bytes.now (k + i) }
{
    let rest = bytes.get(k..).unwrap_or(&[]);
    match rest.split_first_chunk::<N>() {
        Some((found, _)) => *found,
        None => padded(rest),
    }
}

// The three readers keep their names and types, which are public: each is one call of the `from_le_bytes` of its own type, and that is
// no method of a trait.

// The number in the two bytes from the byte k on.
#[inline(always)]
pub fn word(bytes: &[u8], k: usize) -> u16
    ensures { result ≡ number2 bytes.now k }
{
    u16::from_le_bytes(bytes_at(bytes, k))
}

// The number in the four bytes from the byte k on.
#[inline(always)]
pub fn long(bytes: &[u8], k: usize) -> u32
    ensures { result ≡ number4 bytes.now k }
{
    u32::from_le_bytes(bytes_at(bytes, k))
}

// The number in the eight bytes from the byte k on: a row of a table.
#[inline(always)]
pub fn row(bytes: &[u8], k: usize) -> u64
    ensures { result ≡ number8 bytes.now k }
{
    u64::from_le_bytes(bytes_at(bytes, k))
}
