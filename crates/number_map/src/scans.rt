// A number looked for from the front.
ghost use Rattle.std.specs.Prelude.{◌≡◌};
ghost use Rattle.number_map.specs.Places.{number_place};

/// The place of the first that is the number, and else how many there are.
pub(crate) fn scan(numbers: &[u64], number: u64) -> usize
    ensures { result ≡ number_place number numbers.now }
{
    for i in 0..numbers.len() {
        if numbers[i] == number {
            return i;
        }
    }
    numbers.len()
}
