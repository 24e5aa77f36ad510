// Numbers of so many bytes each, low byte first: reading them into a lent slice, and writing them.
ghost use Rattle.std.specs.Prelude.{◌≡◌, ◌*◌, ◌≤◌, ◌++◌, length, drop, slice_index, OnOk};
ghost use Rattle.trace_bytes.specs.Bytes.{bytes_each, low_first, numbers_each};

use std::alloc::AllocError;

// A missing byte counts as 0.
pub(crate) fn byte_at(bytes: &[u8], place: usize) -> u8
    ensures { result ≡ slice_index bytes.now place }
{
    bytes.get(place).copied().unwrap_or(0)
}

// The number of up to four bytes, low byte first.
fn low_first(bytes: &[u8]) -> u64
    ensures { result ≡ low_first bytes.now }
{
    u64::from(u32::from_le_bytes([
        byte_at(bytes, 0),
        byte_at(bytes, 1),
        byte_at(bytes, 2),
        byte_at(bytes, 3),
    ]))
}

// Fills `numbers` with numbers of `width` bytes each as far as there are bytes, and says how many these are.
pub(crate) fn fill(bytes: &[u8], width: usize, numbers: &mut [u64]) -> usize
    ensures within { (result ≤ length numbers.old) × (width * result ≤ length bytes.now) }
    ensures count { result ≡ length (numbers_each width (length numbers.old) bytes.now) }
    ensures after { numbers.new ≡ numbers_each width (length numbers.old) bytes.now ++ drop result numbers.old }
{
    // The bytes are cut by hand, since `chunks_exact` requires a width above 0.
    let mut rest = bytes;
    for (place, number) in numbers.iter_mut().enumerate() {
        let Some((word, behind)) = rest.split_at_checked(width) else {
            return place;
        };
        *number = low_first(word);
        rest = behind;
    }
    numbers.len()
}

// Writes numbers in so many bytes each, low byte first.
pub(crate) fn push_numbers(
    bytes: &mut Vec<u8>,
    width: usize,
    numbers: &[u64],
) -> Result<(), AllocError>
    requires { width ≤ 8 }
    ensures { OnOk result (bytes.new.items ≡ bytes.old.items ++ bytes_each width numbers.now) }
{
    for number in numbers {
        bytes.extend_from_slice(&number.to_le_bytes()[..width])?;
    }
    Ok(())
}
